// A plan.
ghost use Rattle.std.specs.Prelude.{◌≡◌, Some};
ghost use Rattle.plan.specs.Plan.{way_of, shortest as shortest_of, routes as routes_of};
ghost use Rattle.plan.specs.Printed.{lengths_text, way_text, plan_text};

use std::cmp::Ordering;
use std::fmt;

// The lengths of the one-move and of the two-move plan.
#[derive(Clone, Copy, Debug, PartialEq, Eq)]
pub struct Lengths {
    pub direct: u64,
    pub detour: u64,
}

// Which plan is the shorter. Still: no disc moves.
#[derive(Clone, Copy, Debug, PartialEq, Eq)]
pub enum Way {
    Still,
    Direct(Lengths),
    Detour(Lengths),
    Tie(Lengths),
}

// A plan: the number of discs, the largest disc that moves with the pegs that it leaves and reaches (all 0 where none moves), and
// the way.
// Stays: 0 and no `Option` where no disc moves, as `plan_by` of specs/Plan has it.
#[derive(Clone, Copy, Debug, PartialEq, Eq)]
pub struct Plan {
    pub discs: usize,
    pub largest: usize,
    pub from: u8,
    pub to: u8,
    pub way: Way,
}

impl Way {
    // The shorter of the two, or a tie.
    #[tactic(auto, using(std::proofs::lemmas::Bool::Decides::nat_tests), unfolding(crate::specs::Plan::way_of))]
    pub fn of(lengths: Lengths) -> Way
        ensures { result ≡ way_of lengths }
    {
        match lengths.direct.cmp(&lengths.detour) {
            Ordering::Less => Way::Direct(lengths),
            Ordering::Greater => Way::Detour(lengths),
            Ordering::Equal => Way::Tie(lengths),
        }
    }
}

impl Plan {
    // The fewest moves.
    pub fn shortest(self) -> u64
        ensures { result ≡ shortest_of self }
    {
        match self.way {
            Way::Still => 0,
            Way::Direct(lengths) | Way::Tie(lengths) => lengths.direct,
            Way::Detour(lengths) => lengths.detour,
        }
    }

    // How many shortest routes there are.
    pub fn routes(self) -> u64
        ensures { result ≡ routes_of self }
    {
        match self.way {
            Way::Still | Way::Direct(_) | Way::Detour(_) => 1,
            Way::Tie(_) => 2,
        }
    }
}

// A plan's lengths, as "direct 3 detour 3".
impl fmt::Display for Lengths {
    ghost output = { λ lengths. Some (lengths_text lengths) };

    fn fmt<W: fmt::Write>(&self, f: &mut fmt::Formatter<W>) -> fmt::Result {
        write!(f, "direct {} detour {}", self.direct, self.detour)
    }
}

// Its word and its lengths, as "tie: direct 3 detour 3"; or "still".
impl fmt::Display for Way {
    ghost output = { λ way. Some (way_text way) };

    fn fmt<W: fmt::Write>(&self, f: &mut fmt::Formatter<W>) -> fmt::Result {
        match self {
            Way::Still => write!(f, "still"),
            Way::Direct(lengths) => write!(f, "direct: {lengths}"),
            Way::Detour(lengths) => write!(f, "detour: {lengths}"),
            Way::Tie(lengths) => write!(f, "tie: {lengths}"),
        }
    }
}

// Its way, the fewest moves and how many routes have them.
impl fmt::Display for Plan {
    ghost output = { λ plan. Some (plan_text plan) };

    fn fmt<W: fmt::Write>(&self, f: &mut fmt::Formatter<W>) -> fmt::Result {
        let shortest = self.shortest();
        let routes = self.routes();
        write!(f, "{} shortest {shortest} routes {routes}", self.way)
    }
}
