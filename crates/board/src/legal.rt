// The smallest disc of a peg, and the faults of a move, in the order of their checks.
ghost use Rattle.std.specs.Prelude.{◌≡◌};
ghost use Rattle.board.specs.Legal.{legal_check};
ghost use Rattle.board.specs.Move.{top};
ghost use Rattle.board.specs.Refusal.{reply_of};

use crate::refusal::Refusal;

// The place of a peg's smallest disc, or the number of discs where the peg is empty.
// Stays: the number of discs and no `Option`, as the clause of this public function has it (`top` of specs/Move).
pub fn top_of(position: &[u8], peg: u8) -> usize
    ensures { result ≡ top position.now peg }
{
    position
        .iter()
        .position(|b| *b == peg)
        .unwrap_or(position.len())
}

// The first fault of a move on a position.
#[tactic(auto, using(std::proofs::lemmas::Bool::Decides::nat_tests), unfolding(crate::specs::Legal::legal_check))]
pub fn legal_verdict(position: &[u8], from: u8, to: u8) -> Result<(), Refusal>
    ensures { reply_of result ≡ legal_check position.now (record { from = from; to = to }) }
{
    if 3 <= from || 3 <= to {
        return Err(Refusal::NotAPeg);
    }
    let disc = top_of(position, from);
    if from == to || disc == position.len() {
        return Err(Refusal::NoDisc);
    }
    if top_of(position, to) < disc {
        return Err(Refusal::SmallerInTheWay);
    }
    Ok(())
}
