// A position as a record holds it: an array with a byte for each disc that a board can have, the unused ones 0.
ghost use Rattle.std.specs.Prelude.{◌≡◌, ◌≤◌, length};
ghost use Rattle.board.specs.Held.{padded, all_zero, holds_position};
ghost use Rattle.board.specs.Task.{limit};

use crate::position::{LIMIT, only_pegs};

// The array of a position.
#[tactic(auto, using(crate::proofs::Arrays::drop_zeros))]
pub fn padded_array(position: &[u8]) -> [u8; LIMIT]
    requires { length position.now ≤ limit }
    ensures { result ≡ padded position.now }
{
    let mut all = [0; LIMIT];
    all[..position.len()].copy_from_slice(position);
    all
}

// Whether all bytes are 0.
fn all_zero(bytes: &[u8]) -> bool
    ensures { result ≡ all_zero bytes.now }
{
    bytes.iter().all(|b| *b == 0)
}

// Whether an array holds a position of n discs.
#[tactic(auto, using(crate::proofs::Arrays::part_to_limit), unfolding(crate::specs::Held::holds_position))]
pub fn holds_position(n: usize, bytes: [u8; LIMIT]) -> bool
    requires { n ≤ limit }
    ensures { result ≡ holds_position n bytes }
{
    only_pegs(&bytes[..n]) && all_zero(&bytes[n..])
}
