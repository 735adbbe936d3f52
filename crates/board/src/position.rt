// Positions: the limit on discs, the tests of their bytes, and the faults of a position by itself, in the order of their checks.
ghost use Rattle.std.specs.Prelude.{◌≡◌};
ghost use Rattle.board.specs.Fewest.{same};
ghost use Rattle.board.specs.Position.{well_formed};
ghost use Rattle.board.specs.Refusal.{reply_of};
ghost use Rattle.board.specs.Task.{position_check};

use crate::refusal::Refusal;

// The most discs that a board has.
pub const LIMIT: usize = 60;

// Whether all bytes are pegs. Each is looked at, with no branch on it.
pub fn only_pegs(bytes: &[u8]) -> bool
    ensures { result ≡ well_formed bytes.now }
{
    bytes.iter().fold(true, |all, b| all & (*b < 3))
}

// Whether two positions are the same.
// Stays: `==` in a function of its own, since it is a public one, and its clause has `same`, the word that the theorems use.
#[tactic(auto, using(crate::proofs::Search::same_each))]
pub fn same_position(a: &[u8], b: &[u8]) -> bool
    ensures { result ≡ same a.now b.now }
{
    a == b
}

// The first fault of a position.
#[tactic(auto, using(std::proofs::lemmas::Bool::Decides::nat_tests), unfolding(crate::specs::Task::position_check))]
pub fn position_verdict(position: &[u8]) -> Result<(), Refusal>
    ensures { reply_of result ≡ position_check position.now }
{
    if LIMIT < position.len() {
        return Err(Refusal::TooManyDiscs);
    }
    if only_pegs(position) {
        Ok(())
    } else {
        Err(Refusal::NotAPeg)
    }
}
