// The faults of a task, in the order of their checks.
ghost use Rattle.std.specs.Prelude.{◌≡◌};
ghost use Rattle.board.specs.Refusal.{reply_of};
ghost use Rattle.board.specs.Task.{task_check};

use crate::position::{LIMIT, only_pegs};
use crate::refusal::Refusal;

// The first fault of a task.
#[tactic(auto, using(std::proofs::lemmas::Bool::Decides::nat_tests), unfolding(crate::specs::Task::task_check))]
pub fn task_verdict(task: &[u8]) -> Result<(), Refusal>
    ensures { reply_of result ≡ task_check task.now }
{
    if task.len() % 2 == 1 {
        return Err(Refusal::OddLength);
    }
    if LIMIT < task.len() / 2 {
        return Err(Refusal::TooManyDiscs);
    }
    if only_pegs(task) {
        Ok(())
    } else {
        Err(Refusal::NotAPeg)
    }
}
