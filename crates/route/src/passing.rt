// A disc passed on the way down a gathering.
ghost use Rattle.std.specs.Prelude.{◌+◌};
ghost use Rattle.plan.specs.Inner.Sound.{Gatherable};
ghost use Rattle.route.specs.Inner.Along.{IsPeg, Passes};

// Where a disc is, and what is left of the gathering for the smaller ones: their target, the moves left, and the peg on which they
// are a tower, if they are one and not as in the position.
#[derive(Clone, Copy)]
pub struct Passed {
    pub peg: u8,
    pub goal: u8,
    pub rest: u64,
    pub tower: Option<u8>,
}

// Disc k + 1 below a disc that was passed. On its target it stays; else it waits while 2^k moves or more are left, and after that is on its
// target, with the smaller ones to follow it as a tower from the third peg.
// Stays: the clause and no `Gathering`, which would be no plainer, since each disc is passed with a target of its own.
#[tactic(auto, using(crate::proofs::Along::Passing::passing))]
pub fn pass(position: &[u8], k: usize, above: Passed) -> Passed
    requires gatherable { Gatherable position.now (k + 1) above.goal }
    requires tower_peg { IsPeg above.tower }
    ensures { Passes position.now k above.goal above.rest above.tower result }
{
    let goal = above.goal;
    let at = above.tower.unwrap_or(position[k]);
    let next = board::third(goal, at);
    let last = plan::tower::length(k) + 1;
    if at == goal {
        return Passed { peg: goal, ..above };
    }
    if last <= above.rest {
        return Passed {
            peg: at,
            goal: next,
            rest: above.rest - last,
            ..above
        };
    }
    Passed {
        peg: goal,
        tower: Some(next),
        ..above
    }
}
