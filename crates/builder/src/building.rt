// Add and Remove: the largest disc slid under the tower, and taken out again.
ghost use Rattle.std.specs.Prelude.{◌≡◌, MatchResult, Ok, Err};
ghost use Rattle.board.specs.Refusal.{reply_of};
ghost use Rattle.builder.specs.Answer.{add_answer, add_leaves, remove_answer, remove_leaves};
ghost use Rattle.builder.specs.Inner.Made.{made_by_add, made_by_remove};

use crate::lengths::{with_disc, without_disc};
use crate::record::Builder;
use board::{LIMIT, Refusal};

// An answer, and the builder after it.
// Stays: a struct of both and no Result of one, since the contract says what the builder is after a refusal too.
#[derive(Clone, Copy, Debug, PartialEq, Eq)]
pub struct Built {
    pub verdict: Result<(), Refusal>,
    pub builder: Builder,
}

impl Built {
    // The answer of a call, and what it leaves: the builder that it makes, or where it is refused the one that stood before.
    fn of(before: Builder, made: Result<Builder, Refusal>) -> Built
        ensures { MatchResult made
            (λ b. (result.verdict ≡ Ok tt) × (result.builder ≡ b))
            (λ why. (result.verdict ≡ Err why) × (result.builder ≡ before)) }
    {
        Built {
            verdict: made.map(|_| ()),
            builder: made.unwrap_or(before),
        }
    }
}

impl Builder {
    // The first fault of an addition.
    #[tactic(auto, using(std::proofs::lemmas::Bool::Decides::nat_tests), unfolding(crate::specs::Answer::add_answer))]
    fn add_verdict(&self, peg: u8) -> Result<(), Refusal>
        ensures { reply_of result ≡ add_answer self.now peg }
    {
        if !self.is_sound() {
            return Err(Refusal::UnsoundRecord);
        }
        if self.n == LIMIT {
            return Err(Refusal::TooManyDiscs);
        }
        if 2 < peg {
            return Err(Refusal::NotAPeg);
        }
        Ok(())
    }

    // The builder with one disc more.
    #[tactic(auto, using(crate::proofs::Calls::add_accepted, crate::proofs::Calls::add_grows), unfolding(crate::specs::Answer::with_disc))]
    fn added(mut self, peg: u8) -> Result<Builder, Refusal>
        ensures { reply_of result ≡ made_by_add self peg }
    {
        self.add_verdict(peg)?;
        self.position[self.n] = peg;
        with_disc(&mut self.lengths, self.n, peg);
        self.n += 1;
        Ok(self)
    }

    // The first fault of a removal.
    #[tactic(auto, using(std::proofs::lemmas::Bool::Decides::nat_tests), unfolding(crate::specs::Answer::remove_answer))]
    fn remove_verdict(&self) -> Result<(), Refusal>
        ensures { reply_of result ≡ remove_answer self.now }
    {
        if !self.is_sound() {
            return Err(Refusal::UnsoundRecord);
        }
        if self.n == 0 {
            return Err(Refusal::EmptyTower);
        }
        Ok(())
    }

    // The builder with its largest disc gone.
    #[tactic(auto, using(crate::proofs::Calls::remove_accepted, crate::proofs::Holding::sound_shrinks), unfolding(crate::specs::Answer::without_disc))]
    fn removed(mut self) -> Result<Builder, Refusal>
        ensures { reply_of result ≡ made_by_remove self }
    {
        self.remove_verdict()?;
        self.n -= 1;
        let peg = self.position[self.n];
        self.position[self.n] = 0;
        without_disc(&mut self.lengths, self.n, peg);
        Ok(self)
    }
}

// Add: a new largest disc on a peg. Refuses with 10, 2 and 3, and the builder is then as it was.
#[tactic(auto, unfolding(crate::specs::Answer::add_leaves))]
pub fn add(builder: Builder, peg: u8) -> Built
    ensures { (reply_of result.verdict ≡ add_answer builder peg) × (result.builder ≡ add_leaves builder peg) }
{
    Built::of(builder, builder.added(peg))
}

// Remove: the largest disc is taken out. Refuses with 10 and 19, and the builder is then as it was.
#[tactic(auto, unfolding(crate::specs::Answer::remove_leaves))]
pub fn remove(builder: Builder) -> Built
    ensures { (reply_of result.verdict ≡ remove_answer builder) × (result.builder ≡ remove_leaves builder) }
{
    Built::of(builder, builder.removed())
}
