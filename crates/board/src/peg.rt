// Pegs: 0, 1 and 2.
ghost use Rattle.std.specs.Prelude.{◌≡◌, ◌<◌, Some};
ghost use Rattle.board.specs.Peg.{third as third_of};
ghost use Rattle.board.specs.Printed.{peg_text};

use std::fmt;

// The third peg of i and j: i where they are the same, else the peg that is neither. The compiler makes a conditional move of the test.
#[tactic(auto, using(std::proofs::lemmas::Bool::Decides::nat_tests), unfolding(crate::specs::Peg::third))]
pub fn third(i: u8, j: u8) -> u8
    requires { (i < 3) × (j < 3) }
    ensures { result ≡ third_of i j }
{
    if i == j { i } else { 3 - (i + j) }
}

// A peg in print: its letter, or the number of a byte that is no peg.
#[derive(Clone, Copy, Debug, PartialEq, Eq)]
pub struct Letter(pub u8);

impl fmt::Display for Letter {
    ghost output = { λ letter. Some (peg_text letter.0) };

    #[tactic(auto, using(std::proofs::lemmas::Bool::Decides::nat_tests))]
    fn fmt<W: fmt::Write>(&self, f: &mut fmt::Formatter<W>) -> fmt::Result {
        match self.0 {
            0..=2 => write!(f, "{}", char::from(b'A' + self.0)),
            other => write!(f, "{other}"),
        }
    }
}
