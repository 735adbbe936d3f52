// Walks along the routes of a task: Move, Place and Run compared with the legal moves, and Wear with how often each disc moves.
use crate::pairs::Pair;
use crate::position::Position;

// What each byte of a position holds before the call.
// Stays: this number, and that of the wears, for none: an `Option` would be no plainer, since the calls write numbers into what is lent.
const NO_PEG: u8 = 3;

// What each entry of the wears holds before the call.
const NO_WEAR: u64 = u64::MAX;

// A walk along a route: the position, and how often each disc has moved, with entries beyond the discs.
#[derive(Clone, Copy)]
pub struct Walk<'a> {
    pair: &'a Pair<'a>,
    route: u64,
    at: Position,
    wears: [u64; 7],
}

// The letter of a peg, as a byte to compare with what Run writes.
// Stays: its own `match`, so that what Run writes is compared with letters that are not the library's: one of `board` is no plainer.
pub fn letter(peg: u8) -> u8 {
    match peg {
        0 => b'A',
        1 => b'B',
        _ => b'C',
    }
}

impl Pair<'_> {
    // Whether Place writes a position as the one at an index of a route, and nothing after it.
    pub fn is_placed(&self, route: u64, index: u64, position: Position) -> bool {
        let mut bytes = [NO_PEG; 7];
        let placed = route::place(self.task, route, index, &mut bytes);
        let (pegs, rest) = bytes.split_at(position.pegs().len());
        placed.is_ok() && pegs == position.pegs() && rest.iter().all(|byte| *byte == NO_PEG)
    }

    // What Run writes of a whole route.
    pub fn written<'b>(&self, route: u64, letters: &'b mut [u8; 128]) -> Option<&'b [u8]> {
        let count = run::run(self.task, route, 0, letters).ok()?;
        letters.get(..count.checked_mul(2)?)
    }

    // A walk along a route, at the start.
    pub fn walk(&self, route: u64) -> Walk<'_> {
        let mut wears = [NO_WEAR; 7];
        wears[..self.start.pegs().len()].fill(0);
        Walk {
            pair: self,
            route,
            at: self.start,
            wears,
        }
    }
}

impl Walk<'_> {
    // Makes the move that Move answers for an index, where it is legal and the letters are its own.
    fn make(&mut self, index: u64, letters: &[u8]) -> Option<()> {
        let (step, _) = route::move_at(self.pair.task, self.route, index).ok()?;
        if letters != [letter(step.from), letter(step.to)].as_slice() {
            return None;
        }
        let disc = self.at.top(step.from)?;
        if step.disc != disc + 1 {
            return None;
        }
        self.at = self.at.after(step.from, step.to)?;
        self.wears[disc] = self.wears[disc].saturating_add(1);
        Some(())
    }

    // Whether Place has the position at an index.
    fn is_at(&self, index: u64) -> bool {
        self.pair.is_placed(self.route, index, self.at)
    }

    // Walks to the end of the route, and says whether it goes in as many moves as the distance to the goal, by Move, Place and Run alike.
    pub fn reaches_goal(&mut self) -> bool {
        let mut buffer = [0; 128];
        let Some(letters) = self.pair.written(self.route, &mut buffer) else {
            return false;
        };
        if letters.len() as u64 / 2 != self.pair.distance {
            return false;
        }
        for (index, letters) in letters.chunks_exact(2).enumerate() {
            let index = index as u64;
            if !self.is_at(index) || self.make(index, letters).is_none() {
                return false;
            }
        }
        self.is_at(self.pair.distance) && self.at == self.pair.goal
    }

    // Whether Wear writes how often each disc has moved, and nothing after.
    pub fn is_worn(&self) -> bool {
        let mut entries = [NO_WEAR; 7];
        wear::wear(self.pair.task, self.route, &mut entries).is_ok() && entries == self.wears
    }
}
