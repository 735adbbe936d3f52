// The builder.
ghost use Rattle.std.specs.Prelude.{◌≡◌};
ghost use Rattle.builder.specs.Builder.{empty as empty_builder};

use board::LIMIT;

// n discs; their position, unused bytes 0; the moves that gather them on each peg.
// Stays: an array with n beside it, as the definitions of specs/Builder have it: a builder that is not sound is a value too.
#[derive(Clone, Copy, Debug, PartialEq, Eq)]
pub struct Builder {
    pub n: usize,
    pub position: [u8; LIMIT],
    pub lengths: [u64; 3],
}

// A builder of no discs.
pub fn empty() -> Builder
    ensures { result ≡ empty_builder }
{
    Builder {
        n: 0,
        position: [0; LIMIT],
        lengths: [0; 3],
    }
}
