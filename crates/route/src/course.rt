// The course of a route: which disc crosses, by which pegs, and at which stage an index falls.
ghost use Rattle.std.specs.Prelude.{◌≡◌, ◌<◌, ◌≤◌};
ghost use Rattle.board.specs.Task.{limit};
ghost use Rattle.plan.specs.Inner.Sound.{Ends};
ghost use Rattle.plan.specs.Plan.{plan_of};
ghost use Rattle.route.specs.Inner.Stage.{is_detour, first_peg, first_stop, last_peg, course_of, after_first, stage_of, stage_part};

use crate::part::Part;
use plan::{Plan, Way};

// Disc `disc` + 1 crosses from `from` to `to`, directly or by way of `free`, after `first` moves of gathering.
// Stays: no ghost field for its pegs and its disc, since `course_by` of specs/Inner/Stage builds courses of any, and a second record type
// beside it would be no plainer.
#[derive(Clone, Copy, Debug, PartialEq, Eq)]
pub struct Course {
    pub disc: usize,
    pub from: u8,
    pub to: u8,
    pub free: u8,
    pub detour: bool,
    pub first: u64,
}

// So many moves of the first gathering left, of the shift left, or of the spreading done.
#[derive(Clone, Copy, Debug, PartialEq, Eq)]
pub enum Stage {
    Gathering(u64),
    Shifting(u64),
    Spreading(u64),
}

impl Stage {
    // The part of the next move: a crossing where no move of the gathering or of the shift is left.
    #[tactic(auto, using(std::proofs::lemmas::Bool::Decides::nat_tests), unfolding(crate::specs::Inner::Stage::stage_part))]
    pub fn part(self) -> Part
        ensures { result ≡ stage_part self }
    {
        match self {
            Stage::Gathering(0) | Stage::Shifting(0) => Part::Cross,
            Stage::Gathering(_) => Part::Gather,
            Stage::Shifting(_) => Part::Shift,
            Stage::Spreading(_) => Part::Spread,
        }
    }
}

// Whether a route of a way is a detour.
#[tactic(auto, using(crate::proofs::Courses::Ways::tie_detour), unfolding(crate::specs::Inner::Stage::is_detour))]
pub fn is_detour(way: Way, route: u64) -> bool
    ensures { result ≡ is_detour way route }
{
    match way {
        Way::Still | Way::Direct(_) => false,
        Way::Detour(_) => true,
        Way::Tie(_) => route != 0,
    }
}

impl Course {
    // The course of a route of a plan in which a disc moves.
    // Stays: two positions, a plan and a number apart and no `Opened`, whose field `known` would refuse the route numbers that this takes.
    #[tactic(auto, using(crate::proofs::Courses::Plan::course_ready), unfolding(crate::specs::Inner::Stage::course_of, crate::specs::Inner::Stage::course_by))]
    pub fn of(start: &[u8], goal: &[u8], plan: Plan, route: u64) -> Course
        requires ends { Ends start.now goal.now }
        requires plan_value { plan ≡ plan_of start.now goal.now }
        requires largest_nonzero { 0 < plan.largest }
        ensures { result ≡ course_of start.now goal.now route }
    {
        let disc = plan.largest - 1;
        let way = plan.way;
        let mut course = Course {
            disc,
            from: plan.from,
            to: plan.to,
            free: board::third(plan.from, plan.to),
            detour: is_detour(way, route),
            first: 0,
        };
        course.first = plan::stack::gather_discs(start, disc, course.first_peg());
        course
    }

    // The peg on which the smaller discs are gathered before the first crossing.
    pub fn first_peg(self) -> u8
        ensures { result ≡ first_peg self }
    {
        if self.detour { self.to } else { self.free }
    }

    // The peg that the first crossing reaches.
    pub fn first_stop(self) -> u8
        ensures { result ≡ first_stop self }
    {
        if self.detour { self.free } else { self.to }
    }

    // The peg from which the smaller discs are spread after the last crossing.
    pub fn last_peg(self) -> u8
        ensures { result ≡ last_peg self }
    {
        if self.detour { self.from } else { self.free }
    }

    // The stage after the first crossing and so many moves more.
    #[tactic(auto, using(std::proofs::lemmas::Bool::Decides::nat_tests), unfolding(crate::specs::Inner::Stage::after_first))]
    fn after_first(self, index: u64) -> Stage
        requires { self.disc ≤ limit }
        ensures { result ≡ after_first self index }
    {
        if self.detour {
            let shift = plan::tower::length(self.disc);
            if index <= shift {
                Stage::Shifting(shift - index)
            } else {
                Stage::Spreading(index - shift - 1)
            }
        } else {
            Stage::Spreading(index)
        }
    }

    // The stage of an index.
    #[tactic(auto, using(std::proofs::lemmas::Bool::Decides::nat_tests), unfolding(crate::specs::Inner::Stage::stage_of))]
    pub fn stage(self, index: u64) -> Stage
        requires { self.disc ≤ limit }
        ensures { result ≡ stage_of self index }
    {
        let first = self.first;
        if index <= first {
            Stage::Gathering(first - index)
        } else {
            self.after_first(index - first - 1)
        }
    }
}
