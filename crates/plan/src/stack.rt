// Gather lengths by recursion from the largest disc downwards.
ghost use Rattle.std.specs.Prelude.{◌≡◌};
ghost use Rattle.board.specs.Position.{peg};
ghost use Rattle.plan.specs.Gather.{gather};
ghost use Rattle.plan.specs.Inner.Sound.{Gatherable};

// The moves that stack the k smallest discs on a target. Disc k is 2^(k - 1) moves from its target where it is not on it; the
// next smaller disc's target is the third peg of that target and of disc k's peg. The test is shifted to its place: no branch on a peg.
// Stays: a rule of the project has gathering as a recursion from disc n downwards, with the disc number falling; and the clause, since a
// value of a type for each disc on the way is no plainer.
#[tactic(auto, using(crate::proofs::Fits::gather_steps))]
pub fn gather_discs(position: &[u8], k: usize, target: u8) -> u64
    requires { Gatherable position.now k target }
    ensures { result ≡ gather (peg position.now) k target }
{
    if k == 0 {
        return 0;
    }
    let below = k - 1;
    let at = position[below];
    let next = board::third(target, at);
    let rest = gather_discs(position, below, next);
    rest + (((at != target) as u64) << below)
}
