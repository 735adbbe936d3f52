// The lengths of full towers.
ghost use Rattle.std.specs.Prelude.{◌≡◌, ◌≤◌};
ghost use Rattle.board.specs.Task.{limit};
ghost use Rattle.plan.specs.Tower.{tower_length};

// The moves that take a tower of d discs from one peg to another, 2^d - 1. By halves, so that no number on the way is above the answer:
// 2^64 - 1 fits 64 bits, 2^64 does not.
#[tactic(auto, using(crate::proofs::Fits::shifts, crate::proofs::Fits::tower_halves))]
pub fn length(d: usize) -> u64
    requires { d ≤ limit }
    ensures { result ≡ tower_length d }
{
    if d == 0 {
        return 0;
    }
    let half = 1 << (d - 1);
    half - 1 + half
}
