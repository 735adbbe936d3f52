// The part behind each move, by Move and by Parts, compared with the disc that moves.
use crate::pairs::Pair;

// How far a route is: the largest disc that changes its peg has not moved; it has just moved for the first time; others move until it
// moves again; or it moves no more.
#[derive(Clone, Copy)]
enum Phase {
    Before,
    Crossed,
    Between,
    After,
}

impl Phase {
    // The phase after a move of the largest disc or of a smaller one, where its letter is one that it can have. The first letter after a
    // crossing tells whether another follows.
    fn after(self, is_largest: bool, letter: u8) -> Option<Phase> {
        match (self, is_largest, letter) {
            (Phase::Before, false, b'G') => Some(Phase::Before),
            (Phase::Before, true, b'X') => Some(Phase::Crossed),
            (Phase::Crossed | Phase::Between, false, b'T') => Some(Phase::Between),
            (Phase::Crossed | Phase::Between, true, b'X') => Some(Phase::After),
            (Phase::Crossed | Phase::After, false, b'S') => Some(Phase::After),
            _ => None,
        }
    }

    // Whether a route of so many moves may end so: without moves before any crossing, else after the last.
    fn may_end(self, moves: usize) -> bool {
        match self {
            Phase::Before => moves == 0,
            Phase::Crossed | Phase::After => true,
            Phase::Between => false,
        }
    }
}

impl Pair<'_> {
    // The largest disc whose pegs differ, counted from 1.
    fn largest_moving(&self) -> Option<usize> {
        let mut discs = self.start.pegs().iter().zip(self.goal.pegs());
        discs
            .rposition(|(from, to)| from != to)
            .map(|disc| disc + 1)
    }

    // The letter that Parts writes into one byte for the move at an index.
    fn letter_at(&self, route: u64, index: u64) -> Option<u8> {
        let mut letter = [0];
        parts::parts(self.task, route, index, &mut letter).ok()?;
        Some(letter[0])
    }

    // The disc that moves at an index, where Move's part has a letter, and Parts writes the same from there.
    fn disc_at(&self, route: u64, index: u64, letter: u8) -> Option<usize> {
        let (step, part) = route::move_at(self.task, route, index).ok()?;
        let is_part = part.letter() == letter && self.letter_at(route, index)? == letter;
        is_part.then_some(step.disc)
    }

    // The phase after moves with these letters.
    fn phase_after(&self, route: u64, letters: &[u8]) -> Option<Phase> {
        let largest = self.largest_moving();
        let mut phase = Phase::Before;
        for (index, letter) in letters.iter().enumerate() {
            let disc = self.disc_at(route, index as u64, *letter)?;
            phase = phase.after(Some(disc) == largest, *letter)?;
        }
        Some(phase)
    }

    // Whether Parts writes as many letters as a route has moves, at most 63, and nothing after them, and they are those of its discs.
    pub fn is_parted(&self, route: u64) -> bool {
        let mut letters = [0; 64];
        let Ok(moves) = parts::parts(self.task, route, 0, &mut letters) else {
            return false;
        };
        moves as u64 == self.distance
            && letters.get(moves) == Some(&0)
            && self
                .phase_after(route, &letters[..moves])
                .is_some_and(|phase| phase.may_end(moves))
    }
}
