// Sound records: which records Play and Report take, and the fewest moves between a record's positions.
ghost use Rattle.std.specs.Prelude.{true, ◌≡◌, ◌<◌, ◌≤◌, ◌^◌, eqb, take};
ghost use Rattle.board.specs.Fewest.{fewest};
ghost use Rattle.board.specs.Task.{limit};
ghost use Rattle.plan.specs.Inner.Sound.{Ends};
ghost use Rattle.session.specs.Counts.{counts_agree, marks_agree};
ghost use Rattle.session.specs.Record.{goal_of, first_of, now_of, positions_held, sound};

use crate::counting::PLAY_LIMIT;
use crate::record::Session;
use board::{LIMIT, holds_position};
use plan::crossing::plan_between;

impl Session {
    // The fewest moves from one of its positions to its goal.
    // Stays: the clause of `plan_between`, which it calls, and no `Task`: a record's arrays are ends only up to n.
    #[tactic(auto, using(plan::proofs::Sound::ends_fewest, plan::proofs::Sound::ends_fit))]
    pub(crate) fn fewest_from(&self, from: &[u8; LIMIT]) -> u64
        requires n_le_limit { self.now.n ≤ limit }
        requires ends { Ends (take self.now.n from.now) (goal_of self.now) }
        ensures value { result ≡ fewest (take self.now.n from.now) (goal_of self.now) }
        ensures upper_bound { result < 2 ^ limit }
    {
        plan_between(&from[..self.n], &self.goal[..self.n]).shortest()
    }

    // Whether what remains is the fewest from the current position to the goal.
    fn remaining_agrees(&self) -> bool
        requires { positions_held self.now ≡ true }
        ensures { result ≡ eqb self.now.remaining (now_of self.now) }
    {
        let now = self.fewest_from(&self.current);
        self.remaining == now
    }

    // Whether the plays toward and away account for the way from the start to the current position.
    #[tactic(auto, using(crate::proofs::Account::counts_few, crate::proofs::Account::counts_within, crate::proofs::Soundness::positions_held_lem, crate::proofs::Soundness::remaining_fits), unfolding(crate::specs::Counts::marks_agree))]
    fn marks_agree(&self) -> bool
        requires positions { positions_held self.now ≡ true }
        requires counts { counts_agree self.now.counts ≡ true }
        requires remaining { self.now.remaining ≡ now_of self.now }
        ensures { result ≡ marks_agree self.now.counts (now_of self.now) (first_of self.now) }
    {
        let first = self.fewest_from(&self.start);
        self.counts.toward + self.remaining == self.counts.away + first
    }

    // Whether a record holds three positions of n discs.
    #[tactic(auto, using(std::proofs::lemmas::Bool::Decides::nat_tests), unfolding(crate::specs::Record::positions_held))]
    fn holds_positions(&self) -> bool
        ensures { result ≡ positions_held self.now }
    {
        self.n <= LIMIT
            && holds_position(self.n, self.start)
            && holds_position(self.n, self.goal)
            && holds_position(self.n, self.current)
    }

    // Whether a record is sound. At most two fewests are worked out: from the current position and from the start.
    #[tactic(auto, using(std::proofs::lemmas::Bool::Decides::nat_tests), unfolding(crate::specs::Record::sound))]
    pub(crate) fn is_sound(&self) -> bool
        ensures { result ≡ sound self.now }
    {
        self.holds_positions()
            && self.counts.agree()
            && self.fumbles <= PLAY_LIMIT
            && self.remaining_agrees()
            && self.marks_agree()
    }
}
