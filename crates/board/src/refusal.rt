// Why a call is refused, and the number that documents 01 and 02 give each reason.
ghost use Rattle.std.specs.Prelude.{◌≡◌, Some};
ghost use Rattle.board.specs.Printed.{refusal_text};
ghost use Rattle.board.specs.Refusal.{number as number_of};

use std::error::Error;
use std::fmt;

#[derive(Clone, Copy, Debug, PartialEq, Eq)]
pub enum Refusal {
    OddLength = 1,
    TooManyDiscs = 2,
    NotAPeg = 3,
    NoSuchRoute = 4,
    NoSuchIndex = 5,
    ShortBuffer = 6,
    WrongSize = 7,
    NoDisc = 8,
    SmallerInTheWay = 9,
    UnsoundRecord = 10,
    TooManyPlays = 11,
    BadText = 12,
    NotWholeTasks = 13,
    NotLetterPairs = 14,
    IllegalMove = 15,
    NotShortest = 16,
    EmptyTower = 19,
    TooLargeToTotal = 20,
}

impl Refusal {
    pub fn number(self) -> u64
        ensures { result ≡ number_of self }
    {
        self as u64
    }
}

// The word and the number, as the programs print them.
impl fmt::Display for Refusal {
    ghost output = { λ refusal. Some (refusal_text refusal) };

    fn fmt<W: fmt::Write>(&self, f: &mut fmt::Formatter<W>) -> fmt::Result {
        write!(f, "refused {}", self.number())
    }
}

impl Error for Refusal {}
