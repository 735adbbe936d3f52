// The part of the plan behind a move (document 02, CR 1).
ghost use Rattle.std.specs.Prelude.{◌≡◌, Some};
ghost use Rattle.route.specs.Part.{part_letter};
ghost use Rattle.route.specs.Printed.{part_text};

use std::fmt;

// Gathering before the first crossing, a crossing by the largest disc that moves, the shift between two crossings, and spreading.
#[derive(Clone, Copy, Debug, PartialEq, Eq)]
pub enum Part {
    Gather,
    Cross,
    Shift,
    Spread,
}

impl Part {
    // Its letter.
    // Stays: a match, since as values of the cases the letters would be the numbers 71, 88, 84 and 83, which is no plainer.
    pub fn letter(self) -> u8
        ensures { result ≡ part_letter self }
    {
        match self {
            Part::Gather => b'G',
            Part::Cross => b'X',
            Part::Shift => b'T',
            Part::Spread => b'S',
        }
    }
}

// Its letter.
impl fmt::Display for Part {
    ghost output = { λ part. Some (part_text part) };

    fn fmt<W: fmt::Write>(&self, f: &mut fmt::Formatter<W>) -> fmt::Result {
        write!(f, "{}", char::from(self.letter()))
    }
}
