// What Totals answers.
ghost use Rattle.std.specs.Prelude.{Some};
ghost use Rattle.averages.specs.Printed.{totals_text};

use std::fmt;

// Over all ordered pairs of positions of a board: the fewest moves, added up, and how many pairs tie.
#[derive(Clone, Copy, Debug, PartialEq, Eq)]
pub struct Totals {
    pub sum: u64,
    pub ties: u64,
}

// The two numbers, as the programs print them.
impl fmt::Display for Totals {
    ghost output = { λ totals. Some (totals_text totals) };

    fn fmt<W: fmt::Write>(&self, f: &mut fmt::Formatter<W>) -> fmt::Result {
        write!(f, "sum {}, ties {}", self.sum, self.ties)
    }
}
