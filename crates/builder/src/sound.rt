// Sound builders: which builders Add and Remove take.
ghost use Rattle.std.specs.Prelude.{◌≡◌};
ghost use Rattle.builder.specs.Builder.{sound};

use crate::lengths::lengths_of;
use crate::record::Builder;
use board::{LIMIT, holds_position};

impl Builder {
    // Whether a builder is sound: it holds a position, and the three lengths are that position's own.
    #[tactic(auto, using(std::proofs::lemmas::Bool::Decides::nat_tests, board::proofs::Search::same_each, board::proofs::Arrays::holds_exactly, board::proofs::Arrays::held_formed), unfolding(crate::specs::Builder::sound))]
    pub(crate) fn is_sound(&self) -> bool
        ensures { result ≡ sound self.now }
    {
        self.n <= LIMIT
            && holds_position(self.n, self.position)
            && self.lengths == lengths_of(self.n, self.position)
    }
}
