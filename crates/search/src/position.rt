// Positions of up to 6 discs, and the legal moves from the rules of the puzzle alone.
ghost use Rattle.std.specs.Prelude.{◌<◌, ◌≤◌, length, IfSome};

// The moves from each peg to each other.
pub const MOVES: [(u8, u8); 6] = [(0, 1), (0, 2), (1, 0), (1, 2), (2, 0), (2, 1)];

// The pairs of pegs between which a move goes.
pub const PAIRS: [(u8, u8); 3] = [(0, 1), (0, 2), (1, 2)];

// How many places there are: one for each position of 6 discs.
pub const PLACES: usize = 729;

// The peg of each disc, from the smallest disc on.
// Stays: an array with the number of discs beside it, since a list (`Vec`, or the kit's `ArrayVec`) is not `Copy`, and so no plainer.
#[derive(Clone, Copy, PartialEq, Eq)]
pub struct Position {
    discs: usize,
    pegs: [u8; 6],
    ghost few: { discs ≤ 6 },
}

impl Position {
    // The same position but for one disc, counted from 0.
    fn with(mut self, disc: usize, peg: u8) -> Position
        requires { disc < 6 }
    {
        self.pegs[disc] = peg;
        self
    }

    // The position of so many discs by a number: in base 3, digit d is the peg of disc d, counted from 0.
    pub fn of(discs: usize, number: usize) -> Position
        requires { discs ≤ 6 }
    {
        let mut pegs = [0; 6];
        let mut rest = number;
        for peg in &mut pegs[..discs] {
            *peg = (rest % 3) as u8;
            rest /= 3;
        }
        Position { discs, pegs }
    }

    // Writes the positions of so many discs by their numbers, and answers all of them, which are 3^n.
    // Stays: an array that is lent, and no `Vec`: fixed memory, a rule of the project.
    pub fn all(discs: usize, positions: &mut [Position; PLACES]) -> &[Position]
        requires { discs ≤ 6 }
    {
        for (number, position) in positions.iter_mut().enumerate() {
            *position = Position::of(discs, number);
        }
        &positions[..3usize.saturating_pow(discs as u32).min(PLACES)]
    }

    // The peg of each disc.
    pub fn pegs(&self) -> &[u8]
        ensures { length result.now ≤ 6 }
    {
        &self.pegs[..self.discs]
    }

    // The smallest disc on a peg, counted from 0.
    pub fn top(&self, peg: u8) -> Option<usize>
        ensures { IfSome result (λ disc. disc < 6) }
    {
        self.pegs().iter().position(|at| *at == peg)
    }

    // The position after the smallest disc of a peg goes to another, where that is legal: a peg, with no smaller disc.
    pub fn after(self, from: u8, to: u8) -> Option<Position> {
        let disc = self.top(from)?;
        if 2 < to || self.top(to).is_some_and(|other| other <= disc) {
            return None;
        }
        Some(self.with(disc, to))
    }

    // The position after the one legal move between two pegs, or None where both are empty.
    pub fn between(self, one: u8, other: u8) -> Option<Position> {
        self.after(one, other).or(self.after(other, one))
    }
}
