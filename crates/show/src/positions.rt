// Positions in print.
ghost use Rattle.std.specs.Prelude.{◌≡◌, Some, take};
ghost use Rattle.show.specs.Printed.{digits_text};

use board::LIMIT;
use std::fmt;

// The bytes of a position as digits, with a dot for any other byte, as a buffer comes filled.
#[derive(Clone, Copy)]
pub struct Digits<'a>(pub &'a [u8]);

impl fmt::Display for Digits<'_> {
    ghost output = { λ d. Some (digits_text d.0.now) };

    fn fmt<W: fmt::Write>(&self, f: &mut fmt::Formatter<W>) -> fmt::Result {
        for byte in self.0 {
            match byte {
                0..=2 => write!(f, "{byte}")?,
                _ => write!(f, ".")?,
            }
        }
        Ok(())
    }
}

// A position of n discs as a record holds it, or the whole array where n is more than there can be.
pub fn held(n: usize, position: &[u8; LIMIT]) -> Digits<'_>
    ensures { result.0.now ≡ take n position.now }
{
    Digits(&position[..n.min(LIMIT)])
}
