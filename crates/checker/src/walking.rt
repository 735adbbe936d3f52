// A walk along letter pairs.
ghost use Rattle.std.specs.Prelude.{◌≡◌};
ghost use Rattle.checker.specs.Inner.Walk.{Walks};
ghost use Rattle.route.specs.Ours.{read_moves};

use crate::discs::Discs;
use plan::Task;

// How many moves were made, and whether they lead to the goal.
// Stays: a flag beside the count and no `Option`, since both are asked of every walk, wherever it leads.
#[derive(Clone, Copy)]
pub struct Walked {
    pub made: usize,
    pub there: bool,
}

// Makes the moves of letter pairs from a start on, up to the first pair that is no legal move.
#[tactic(auto, using(crate::proofs::Walks::walking))]
pub fn walk(task: &Task, letters: &[u8]) -> Walked
    ensures { Walks task.now.start.now (read_moves letters.now) task.now.goal.now result }
{
    if task.start.is_empty() {
        return Walked {
            made: 0,
            there: true,
        };
    }
    let mut discs = Discs::of(task);
    let (pairs, _) = letters.as_chunks::<2>();
    let mut made = 0;
    // Stays: `take_while` and `count` would be no plainer, since each move changes the discs of which the next one is asked.
    for [from, to] in pairs {
        if !discs.make(*from as usize, *to as usize) {
            break;
        }
        made += 1;
    }
    Walked {
        made,
        there: discs.stand(task),
    }
}
