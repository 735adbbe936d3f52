// The breadth-first search.
ghost use Rattle.std.specs.Prelude.{◌≤◌};

use crate::position::{PAIRS, PLACES, Position};

// How far a position is from a start: the fewest moves, and how many lists of so many moves lead there.
#[derive(Clone, Copy)]
pub struct Reach {
    pub moves: u32,
    pub lists: u32,
}

// How far each place is from a start, or None where there is no way.
// Stays: an array, as the places' other lists are, and no `Vec`: fixed memory, a rule of the project.
pub type Reaches = [Option<Reach>; PLACES];

// The places that are a move from each, one for each pair of pegs between which there is a move.
pub type Links = [[Option<u16>; 3]; PLACES];

// Places, in the order in which they were reached.
// Stays: an array and its end, and no `VecDeque`: fixed memory, a rule of the project.
#[derive(Drop)]
struct Queue {
    places: [usize; PLACES],
    end: usize,
    ghost within: { end ≤ 729 },
}

impl Queue {
    // No places.
    fn new() -> Queue {
        Queue {
            places: [0; PLACES],
            end: 0,
        }
    }

    // Puts a place at the end. There is room for all places, each of which joins once.
    fn push(&mut self, place: usize) {
        if let Some(last) = self.places.get_mut(self.end) {
            *last = place;
            self.end += 1;
        }
    }

    // The place at an index, if the queue is so long.
    fn get(&self, index: usize) -> Option<usize> {
        if index < self.end {
            return self.places.get(index).copied();
        }
        None
    }
}

// The places, among all positions, of those that are a move from a position.
fn next_to(positions: &[Position], position: Position) -> [Option<u16>; 3] {
    PAIRS.map(|(one, other)| {
        let after = position.between(one, other)?;
        let place = positions.iter().position(|at| *at == after)?;
        u16::try_from(place).ok()
    })
}

// Writes the places that are a move from each.
pub fn link(positions: &[Position], links: &mut Links) {
    for (places, position) in links.iter_mut().zip(positions) {
        *places = next_to(positions, *position);
    }
}

// Looks from a reached place at others that are a move away. One that is new is a move further, has as many shortest lists, and joins the
// queue. One that is known to be a move further has these lists besides.
fn look(from: Reach, places: &[Option<u16>], reaches: &mut Reaches, queue: &mut Queue) {
    let moves = from.moves.saturating_add(1);
    let lists = from.lists;
    for place in places.iter().flatten() {
        let place = usize::from(*place);
        match reaches.get_mut(place) {
            Some(Some(known)) if known.moves == moves => {
                known.lists = known.lists.saturating_add(lists);
            }
            Some(new @ None) => {
                *new = Some(Reach { moves, lists });
                queue.push(place);
            }
            _ => {}
        }
    }
}

// Writes how far each place is from a start.
pub fn spread(links: &Links, start: usize, reaches: &mut Reaches) {
    reaches.fill(None);
    let mut queue = Queue::new();
    if let Some(reach) = reaches.get_mut(start) {
        *reach = Some(Reach { moves: 0, lists: 1 });
        queue.push(start);
    }
    for index in 0..PLACES {
        let Some(at) = queue.get(index) else {
            return;
        };
        if let Some(Some(from)) = reaches.get(at).copied()
            && let Some(places) = links.get(at)
        {
            look(from, places, reaches, &mut queue);
        }
    }
}
