// A search of every pair of positions, compared with what the library answers.
//
// For n from 0 to 6 discs, and for each of the 3^n positions as the start, a breadth-first search over the legal moves finds the distance
// of every position and the number of shortest lists of moves to it. It takes nothing from the library: the legal moves are told from the
// smallest disc on each peg. The answers of Plan, Move, Place, Run, Parts, Wear, the checker, Locate and Totals are compared with that. A
// line for each n has
//   pairs    the ordered pairs of a start and a goal
//   sum      the distances of all of them, added up
//   ties     the pairs with two shortest lists
//   lengths  the pairs for which Plan's length is the distance
//   counts   the pairs for which Plan's number of routes is the number of shortest lists
//   routes   the routes that end at the goal, with each Move legal, Place at each index the position reached and nothing after it, and Run
//            writing the same moves
//   parts    the routes whose letters, by Move and by Parts alike, from the start and from each index, are G before the largest disc that
//            changes its peg moves, X where it moves, T between two such moves, and S after the last
//   wears    the routes of which Wear writes for each disc how many moves along the walk are its own, and nothing after them
//   known    the routes to which, as Run writes them, the checker answers their number
//   lists    up to 3 discs, the lists of legal moves, each task's up to one longer than its distance, that the checker answers rightly: to
//            those that end at the goal after as many moves as the distance the number of the route that Run writes so, and else 16
//   moves    the moves of all of those pairs' shortest lists, by the search
//   located  the triples of a start, a goal and a position q for which Locate answers as the distances say: where those by way of q add up
//            to that of the goal, the distance of q as the index and the lowest route on which Place has q there, and else None
//   totals   of the two numbers that Totals answers for n, those that are this line's sum and ties
//   wrong    the comparisons that fail, which the other columns but pairs, sum, ties and moves leave out
#![tactic(auto)]

mod distances;
mod listing;
mod locating;
mod pairs;
mod parting;
mod position;
mod tally;
mod walking;

use std::io;

fn main(rt: HostRuntime) -> io::Result<()> {
    for n in 0..7 {
        let mut tally = pairs::all_pairs(n);
        tally.add_totals(n as u64);
        println!(rt; "{n} discs: {tally}")?;
    }
    Ok(())
}
