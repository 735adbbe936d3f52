// The checker compared with the legal moves: on what Run writes, and on every list of legal moves.
ghost use Rattle.std.specs.Prelude.{◌+◌, ◌*◌, ◌≤◌};

use crate::pairs::Pair;
use crate::position::{MOVES, Position};
use crate::tally::Count;
use crate::walking::letter;

impl Pair<'_> {
    // Whether the checker answers the number of a route to what Run writes of it.
    pub fn is_known(&self, route: u64) -> bool {
        let mut buffer = [0; 128];
        let Some(letters) = self.written(route, &mut buffer) else {
            return false;
        };
        checker::check_route(self.task, letters) == Ok(route)
    }

    // Whether Run writes a list of a route.
    fn is_written(&self, route: u64, list: &[u8]) -> bool {
        let mut buffer = [0; 128];
        self.written(route, &mut buffer) == Some(list)
    }

    // Whether the checker answers rightly to a list of legal moves that leads to a position: with the number of the route that Run writes
    // so, or that it is no shortest route.
    fn is_checked(&self, list: &[u8], to: Position) -> bool {
        let is_shortest = list.len() as u64 / 2 == self.distance && to == self.goal;
        match checker::check_route(self.task, list) {
            Ok(route) => is_shortest && self.is_written(route, list),
            Err(why) => !is_shortest && why.number() == 16,
        }
    }

    // A list of legal moves that leads to a position, as the first letters of an array, and each that goes on from there by up to so many
    // moves more.
    // Stays: an array and the length, and no `Vec`: fixed memory, a rule of the project.
    fn compare_lists_from(
        &self,
        at: Position,
        letters: &mut [u8; 18],
        length: usize,
        more: usize,
        lists: &mut Count,
    )
        requires { length + 2 * more ≤ 18 }
    {
        lists.add(self.is_checked(&letters[..length], at));
        if more == 0 {
            return;
        }
        for (from, to) in MOVES {
            if let Some(after) = at.after(from, to) {
                letters[length] = letter(from);
                letters[length + 1] = letter(to);
                self.compare_lists_from(after, letters, length + 2, more - 1, lists);
            }
        }
    }

    // Every list of legal moves from the start, up to one longer than the distance, on boards of up to 3 discs. The array has room for
    // 9 moves, and a distance above 8 is wrong.
    pub fn compare_lists(&self, lists: &mut Count) {
        if 3 < self.start.pegs().len() {
            return;
        }
        if 8 < self.distance {
            lists.add(false);
            return;
        }
        self.compare_lists_from(
            self.start,
            &mut [0; 18],
            0,
            self.distance as usize + 1,
            lists,
        );
    }
}
