// The answers of the calls in print.
ghost use Rattle.std.specs.Prelude.{◌≡◌, ◌++◌, codes, Some};
ghost use Rattle.route.specs.Printed.{move_text, part_text};
ghost use Rattle.show.specs.Printed.{answer_text, found_text, written_text};

use board::Refusal;
use route::{DiscMove, Located, Part};
use std::fmt;

// An answer, or its refusal.
#[derive(Clone, Copy)]
pub struct Answer<T>(pub Result<T, Refusal>);

impl<T: fmt::Display> fmt::Display for Answer<T> {
    ghost output = { λ a. answer_text T.output a.0 };

    fn fmt<W: fmt::Write>(&self, f: &mut fmt::Formatter<W>) -> fmt::Result {
        match &self.0 {
            Ok(value) => write!(f, "{value}"),
            Err(why) => write!(f, "{why}"),
        }
    }
}

// The verdict of a call that answers no more than that it is accepted.
pub fn verdict(verdict: Result<(), Refusal>) -> Answer<&'static str>
    ensures { answer_text (λ word. Some word.now) result.0 ≡ answer_text (λ _. Some (codes "accepted")) verdict }
{
    Answer(verdict.map(|()| "accepted"))
}

// What Move answers: the disc, its pegs and the part.
#[derive(Clone, Copy)]
pub struct Moved(pub (DiscMove, Part));

impl fmt::Display for Moved {
    ghost output = { λ m. Some (move_text m.0.0 ++ codes " " ++ part_text m.0.1) };

    fn fmt<W: fmt::Write>(&self, f: &mut fmt::Formatter<W>) -> fmt::Result {
        let (disc_move, part) = self.0;
        write!(f, "{disc_move} {part}")
    }
}

// What Locate answers: where the position is, or off.
#[derive(Clone, Copy)]
pub struct Found(pub Option<Located>);

impl fmt::Display for Found {
    ghost output = { λ p. Some (found_text p.0) };

    fn fmt<W: fmt::Write>(&self, f: &mut fmt::Formatter<W>) -> fmt::Result {
        match self.0 {
            Some(place) => write!(f, "{place}"),
            None => write!(f, "off"),
        }
    }
}

// What Run or Parts answers, and its buffer, byte by byte.
#[derive(Clone, Copy)]
pub struct Written<'a>(pub usize, pub &'a [u8]);

impl fmt::Display for Written<'_> {
    ghost output = { λ w. Some (written_text w.0 w.1.now) };

    fn fmt<W: fmt::Write>(&self, f: &mut fmt::Formatter<W>) -> fmt::Result {
        write!(f, "{} ", self.0)?;
        for byte in self.1 {
            write!(f, "{}", char::from(*byte))?;
        }
        Ok(())
    }
}
