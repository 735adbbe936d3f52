// The faults of letter pairs, in the order of their checks: 14, 15 and 16.
ghost use Rattle.std.specs.Prelude.{◌≡◌};
ghost use Rattle.board.specs.Fewest.{fewest};
ghost use Rattle.board.specs.Refusal.{reply_of};
ghost use Rattle.checker.specs.Answer.{letters_check};

use crate::letters::only_letters;
use crate::walking::{Walked, walk};
use board::Refusal;
use plan::Task;

// The first fault of letter pairs between two positions so many moves apart, in one pass: the walk reads the letters up to the first pair
// that is no legal move, and from there on they are only asked for being letters.
pub fn letters_verdict(task: &Task, shortest: u64, letters: &[u8]) -> Result<(), Refusal>
    requires { shortest ≡ fewest task.now.start.now task.now.goal.now }
    ensures { reply_of result ≡ letters_check task.now.start.now task.now.goal.now letters.now }
{
    if letters.len() % 2 == 1 {
        return Err(Refusal::NotLetterPairs);
    }
    let Walked { made, there } = walk(task, letters);
    if made < letters.len() / 2 {
        let read = 2 * made;
        if only_letters(&letters[read..]) {
            Err(Refusal::IllegalMove)
        } else {
            Err(Refusal::NotLetterPairs)
        }
    } else if shortest == made as u64 && there {
        Ok(())
    } else {
        Err(Refusal::NotShortest)
    }
}
