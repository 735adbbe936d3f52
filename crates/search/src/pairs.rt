// Every pair of a start and a goal of a size.
ghost use Rattle.std.specs.Prelude.{◌≤◌};

use crate::distances::{Links, Reach, Reaches, link, spread};
use crate::position::{PLACES, Position};
use crate::tally::Tally;

// The positions of a size, and the places that are a move from each.
// Stays: two lists of one order, walked together by `zip`: one list would be no plainer, since a search needs the places alone.
#[derive(Clone, Copy)]
struct Board<'a> {
    positions: &'a [Position],
    links: &'a Links,
}

// The task of a start and a goal, with what the search says of it: the distance and the number of shortest lists of moves, and how far
// each position is from the start and from the goal.
#[derive(Clone, Copy)]
pub struct Pair<'a> {
    pub task: &'a [u8],
    pub start: Position,
    pub goal: Position,
    pub distance: u64,
    pub lists: u64,
    pub positions: &'a [Position],
    pub from_start: &'a [Option<Reach>],
    pub from_goal: &'a [Option<Reach>],
}

impl Pair<'_> {
    // The comparisons of the pair.
    fn compare(&self, tally: &mut Tally) {
        tally.add_pair(self.distance, self.lists);
        let plan = plan::plan(self.task);
        tally
            .lengths
            .add(plan.is_ok_and(|plan| plan.shortest() == self.distance));
        tally
            .counts
            .add(plan.is_ok_and(|plan| plan.routes() == self.lists));
        for route in 0..self.lists {
            self.compare_route(route, tally);
        }
        self.compare_positions(&mut tally.located);
        self.compare_lists(&mut tally.lists);
    }

    // The comparisons of a route.
    fn compare_route(&self, route: u64, tally: &mut Tally) {
        let mut walk = self.walk(route);
        tally.routes.add(walk.reaches_goal());
        tally.wears.add(walk.is_worn());
        tally.parts.add(self.is_parted(route));
        tally.known.add(self.is_known(route));
    }
}

impl Board<'_> {
    // The comparisons of a start and every goal.
    fn compare_from(&self, start: Position, from_start: &Reaches, tally: &mut Tally) {
        let mut from_goal = [None; PLACES];
        let goals = self.positions.iter().zip(from_start);
        for (place, (goal, reach)) in goals.enumerate() {
            // A goal that the search does not reach is a wrong length.
            let Some(reach) = reach else {
                tally.lengths.add(false);
                continue;
            };
            // Stays: a search for each pair, and no list of all: fixed memory, a rule of the project.
            spread(self.links, place, &mut from_goal);
            let mut bytes = [0; 12];
            let pair = Pair {
                task: task_of(start, *goal, &mut bytes),
                start,
                goal: *goal,
                distance: u64::from(reach.moves),
                lists: u64::from(reach.lists),
                positions: self.positions,
                from_start,
                from_goal: &from_goal,
            };
            pair.compare(tally);
        }
    }
}

// Writes the task of a start and a goal, and answers it.
// Stays: an array, and no `concat`, which makes a `Vec`: fixed memory, a rule of the project.
fn task_of(start: Position, goal: Position, bytes: &mut [u8; 12]) -> &[u8] {
    let pegs = start.pegs().iter().chain(goal.pegs());
    for (byte, peg) in bytes.iter_mut().zip(pegs) {
        *byte = *peg;
    }
    &bytes[..start.pegs().len() + goal.pegs().len()]
}

// The comparisons of every pair of n discs.
pub fn all_pairs(n: usize) -> Tally
    requires { n ≤ 6 }
{
    let mut room = [Position::of(n, 0); PLACES];
    let positions = Position::all(n, &mut room);
    let mut links = [[None; 3]; PLACES];
    link(positions, &mut links);
    let board = Board {
        positions,
        links: &links,
    };
    let mut tally = Tally::default();
    let mut from_start = [None; PLACES];
    for (place, start) in positions.iter().enumerate() {
        spread(&links, place, &mut from_start);
        board.compare_from(*start, &from_start, &mut tally);
    }
    tally
}
