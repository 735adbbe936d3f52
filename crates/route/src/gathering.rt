// A gathering met in the middle: where its discs are when some of its moves are left, and its first move.
ghost use Rattle.plan.specs.Inner.Sound.{Gatherable};

use crate::answer::DiscMove;
use crate::passing::{Passed, pass};
use board::LIMIT;

// The smallest discs of a position, so many, to be stacked on a target.
#[derive(Clone, Copy)]
pub struct Gathering<'a> {
    pub position: &'a [u8],
    pub discs: usize,
    pub target: u8,
    pub ghost ready: { Gatherable position.now discs target },
}

impl<'a> Gathering<'a> {
    ghost use Rattle.std.specs.Prelude.{◌≡◌};
    ghost use Rattle.board.specs.Position.{peg};
    ghost use Rattle.route.specs.Inner.Along.{along, Along};
    ghost use Rattle.route.specs.Inner.Stage.{first_move_of};
    ghost use Rattle.route.specs.Route.{gathering, move_at};

    // The pegs of its discs when so many moves are left.
    #[tactic(auto, unfolding(crate::specs::Inner::Along::stacked))]
    pub fn pegs_along(&self, left: u64) -> [u8; LIMIT]
        ensures { Along self.now.position.now self.now.discs self.now.target left result }
    {
        let mut pegs: [u8; LIMIT] = [0; LIMIT];
        // As below a larger disc that is on the target.
        let mut passed = Passed {
            peg: self.target,
            goal: self.target,
            rest: left,
            tower: None,
        };
        for m in (0..self.discs).rev() {
            passed = pass(self.position, m, passed);
            pegs[m] = passed.peg;
        }
        pegs
    }

    // Its first move: the smallest disc that is not on its target goes to it. All 0 where each is on its target.
    // Stays: all 0, as `move_at` of specs/Route has it past the end of a list; an `Option` would be no plainer, since its caller has a move
    // left.
    #[tactic(auto, using(crate::proofs::Gatherings::FirstMove::first_steps))]
    pub fn first_move(&self) -> DiscMove
        ensures { result ≡ move_at (gathering (peg self.now.position.now) self.now.discs self.now.target) 0 }
    {
        let mut first = DiscMove {
            disc: 0,
            from: 0,
            to: 0,
        };
        let mut goal = self.target;
        for m in (0..self.discs).rev() {
            let at = self.position[m];
            let next = board::third(goal, at);
            if at != goal {
                first = DiscMove {
                    disc: m + 1,
                    from: at,
                    to: goal,
                };
            }
            goal = next;
        }
        first
    }

    // The first move when so many are left.
    #[tactic(auto, using(crate::proofs::Along::Front::middle))]
    pub fn move_along(&self, left: u64) -> DiscMove
        ensures { result ≡ first_move_of (along (peg self.now.position.now) self.now.discs self.now.target left) self.now.discs self.now.target }
    {
        let pegs = self.pegs_along(left);
        let there = Gathering {
            position: &pegs[..self.discs],
            discs: self.discs,
            target: self.target,
        };
        there.first_move()
    }
}
