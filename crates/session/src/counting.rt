// The counts of a session, and what a play and a report make of them.
ghost use Rattle.std.specs.Prelude.{true, Some, ◌≡◌, ◌+◌, ◌≤◌, ◌<◌, ◌^◌};
ghost use Rattle.board.specs.Refusal.{number};
ghost use Rattle.session.specs.Counts.{no_plays, mark_of, counted, fumble as fumble_of, full, counts_agree, excess_of};
ghost use Rattle.session.specs.Printed.{mark_text, counts_text, figures_text};

use board::Refusal;
use std::cmp::Ordering;
use std::fmt;

// The plays made, and how many of them were toward, level and away. At first none.
#[derive(Clone, Copy, Debug, Default, PartialEq, Eq)]
pub struct Counts {
    pub made: u64,
    pub toward: u64,
    pub level: u64,
    pub away: u64,
}

// Whether a play brings the goal nearer.
#[derive(Clone, Copy, Debug, PartialEq, Eq)]
pub enum Mark {
    Toward,
    Level,
    Away,
}

// What a report says: the counts, the fewest moves that remain, and the excess.
#[derive(Clone, Copy, Debug, PartialEq, Eq)]
pub struct Figures {
    pub counts: Counts,
    pub remaining: u64,
    pub excess: u64,
}

// The most plays that are counted, and the most fumbles.
pub const PLAY_LIMIT: u64 = 1000000;

impl Mark {
    // The mark of a play, from the fewest to the goal before it and after it.
    #[tactic(auto, using(std::proofs::lemmas::Bool::Decides::nat_tests), unfolding(crate::specs::Counts::mark_of))]
    pub fn of(before: u64, after: u64) -> Mark
        ensures { result ≡ mark_of before after }
    {
        match after.cmp(&before) {
            Ordering::Less => Mark::Toward,
            Ordering::Equal => Mark::Level,
            Ordering::Greater => Mark::Away,
        }
    }
}

// What a refused play adds to the fumbles: 1 where there is no disc or a smaller one is in the way, 0 with any other refusal.
pub fn fumble(why: Refusal) -> u64
    ensures { result ≡ fumble_of (number why) }
{
    matches!(why, Refusal::NoDisc | Refusal::SmallerInTheWay) as u64
}

impl Counts {
    // No play yet.
    pub fn none() -> Counts
        ensures { result ≡ no_plays }
    {
        Counts::default()
    }

    // One play more.
    #[tactic(auto, using(crate::proofs::Account::counts_few, crate::proofs::Account::counts_within), unfolding(crate::specs::Counts::counted))]
    pub fn with(mut self, mark: Mark) -> Counts
        requires { counts_agree self ≡ true }
        ensures { result ≡ counted self mark }
    {
        self.made += 1;
        match mark {
            Mark::Toward => self.toward += 1,
            Mark::Level => self.level += 1,
            Mark::Away => self.away += 1,
        }
        self
    }

    // Whether no more plays are taken: the plays made or the fumbles stand at the limit.
    #[tactic(auto, using(std::proofs::lemmas::Bool::Decides::nat_tests), unfolding(crate::specs::Counts::full))]
    pub fn is_full(self, fumbles: u64) -> bool
        ensures { result ≡ full self fumbles }
    {
        self.made == PLAY_LIMIT || fumbles == PLAY_LIMIT
    }

    // Whether the counts of the marks add up to the plays made, and those are few enough.
    #[tactic(auto, using(std::proofs::lemmas::Bool::Decides::nat_tests), unfolding(crate::specs::Counts::counts_agree))]
    pub fn agree(self) -> bool
        ensures { result ≡ counts_agree self }
    {
        self.made <= PLAY_LIMIT
            && self.toward <= self.made
            && self.level <= self.made
            && self.away <= self.made
            && self.made == self.toward + self.level + self.away
    }

    // The plays made and the fewest moves that remain, less the fewest at the start.
    pub fn excess(self, remaining: u64, first: u64) -> u64
        requires first_bound { first ≤ self.made + remaining }
        requires remaining_bound { self.made + remaining < 2 ^ 64 }
        ensures { result ≡ excess_of self remaining first }
    {
        self.made + remaining - first
    }
}

// The mark's word.
impl fmt::Display for Mark {
    ghost output = { λ mark. Some (mark_text mark) };

    fn fmt<W: fmt::Write>(&self, f: &mut fmt::Formatter<W>) -> fmt::Result {
        f.write_str(match self {
            Mark::Toward => "toward",
            Mark::Level => "level",
            Mark::Away => "away",
        })
    }
}

// The four counts, each after its name.
impl fmt::Display for Counts {
    ghost output = { λ counts. Some (counts_text counts) };

    fn fmt<W: fmt::Write>(&self, f: &mut fmt::Formatter<W>) -> fmt::Result {
        write!(
            f,
            "made {}, toward {}, level {}, away {}",
            self.made, self.toward, self.level, self.away
        )
    }
}

// The counts, and then what remains and the excess.
impl fmt::Display for Figures {
    ghost output = { λ figures. Some (figures_text figures) };

    fn fmt<W: fmt::Write>(&self, f: &mut fmt::Formatter<W>) -> fmt::Result {
        write!(
            f,
            "{}, remaining {}, excess {}",
            self.counts, self.remaining, self.excess
        )
    }
}
