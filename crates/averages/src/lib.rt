// Whole-board averages: the fewest moves between all ordered pairs of positions, added up, and how many of them tie.
#![tactic(auto)]

mod answer;
mod terms;

ghost use Rattle.std.specs.Prelude.{◌≡◌};
ghost use Rattle.board.specs.Refusal.{reply_of};
ghost use Rattle.averages.specs.Answer.{totals_answer};

pub use answer::Totals;
use board::Refusal;
use terms::Terms;

// The most discs of a board that is totalled.
pub const TOTALS_LIMIT: u64 = 15;

// Totals: over all ordered pairs of positions of n discs, the sum of the fewest moves and the number of ties. Refuses with 20.
#[tactic(auto, using(std::proofs::lemmas::Bool::Decides::nat_tests, crate::proofs::FewestSum::sum_hinz, crate::proofs::TieCount::ties_hinz), unfolding(crate::specs::Answer::totals_answer, crate::specs::Terms::terms_of))]
pub fn totals(n: u64) -> Result<Totals, Refusal>
    ensures { reply_of result ≡ totals_answer n }
{
    if TOTALS_LIMIT < n {
        return Err(Refusal::TooLargeToTotal);
    }
    Ok(Terms::of(n).into())
}
