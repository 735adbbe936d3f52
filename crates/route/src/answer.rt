// What Move and Locate answer.
ghost use Rattle.std.specs.Prelude.{◌≡◌, Some};
ghost use Rattle.route.specs.Printed.{move_text, located_text};
ghost use Rattle.route.specs.Route.{turned};

use board::Letter;
use std::fmt;

// A move of a route: the disc, the peg it leaves and the peg it goes to.
#[derive(Clone, Copy, Debug, PartialEq, Eq)]
pub struct DiscMove {
    pub disc: usize,
    pub from: u8,
    pub to: u8,
}

impl DiscMove {
    // The move back.
    pub fn turned(self) -> DiscMove
        ensures { result ≡ turned self }
    {
        DiscMove {
            disc: self.disc,
            from: self.to,
            to: self.from,
        }
    }
}

// Where a position is on the shortest routes: its index, and the lowest number of a route that has it there.
#[derive(Clone, Copy, Debug, PartialEq, Eq)]
pub struct Located {
    pub index: u64,
    pub route: u64,
}

// The disc and its pegs' letters, as "disc 2 BC".
impl fmt::Display for DiscMove {
    ghost output = { λ step. Some (move_text step) };

    fn fmt<W: fmt::Write>(&self, f: &mut fmt::Formatter<W>) -> fmt::Result {
        write!(
            f,
            "disc {} {}{}",
            self.disc,
            Letter(self.from),
            Letter(self.to)
        )
    }
}

// The index and the route, as "index 3 route 0".
impl fmt::Display for Located {
    ghost output = { λ place. Some (located_text place) };

    fn fmt<W: fmt::Write>(&self, f: &mut fmt::Formatter<W>) -> fmt::Result {
        write!(f, "index {} route {}", self.index, self.route)
    }
}
