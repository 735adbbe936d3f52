// Locate compared with the distances. A move can be undone, so those from the goal are those to it.
use crate::distances::Reach;
use crate::pairs::Pair;
use crate::position::Position;
use crate::tally::Count;

impl Pair<'_> {
    // Whether Place has a position at an index of a route, and of no lower one.
    fn is_lowest(&self, route: u64, index: u64, position: Position) -> bool {
        self.is_placed(route, index, position)
            && (0..route).all(|lower| !self.is_placed(lower, index, position))
    }

    // The index on a shortest route of a position so far from the start and from the goal, if it is on one.
    fn index(&self, there: Option<Reach>, back: Option<Reach>) -> Option<u64> {
        let there = u64::from(there?.moves);
        let back = u64::from(back?.moves);
        (there.saturating_add(back) == self.distance).then_some(there)
    }

    // Whether Locate answers as the distances say.
    fn is_located(&self, position: Position, there: Option<Reach>, back: Option<Reach>) -> bool {
        let located = route::locate(self.task, position.pegs());
        match (located, self.index(there, back)) {
            (Ok(Some(place)), Some(index)) => {
                place.index == index && self.is_lowest(place.route, index, position)
            }
            (Ok(None), None) => true,
            _ => false,
        }
    }

    // For each position whether Locate is right.
    pub fn compare_positions(&self, located: &mut Count) {
        let reaches = self.from_start.iter().zip(self.from_goal);
        for (position, (there, back)) in self.positions.iter().zip(reaches) {
            located.add(self.is_located(*position, *there, *back));
        }
    }
}
