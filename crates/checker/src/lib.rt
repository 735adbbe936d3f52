// The checker: whether letter pairs are a shortest route of a task, and which of ours.
#![tactic(auto)]

mod discs;
mod letters;
mod numbering;
mod taking;
mod verdict;
mod walking;

ghost use Rattle.std.specs.Prelude.{◌≡◌};
ghost use Rattle.board.specs.Refusal.{reply_of};
ghost use Rattle.checker.specs.Answer.{checker_answer};

use board::Refusal;
use plan::Task;

// The checker: which of our routes the letter pairs are. Refuses with the task faults, 14, 15 and 16.
#[tactic(auto, using(std::proofs::lemmas::Bool::Decides::nat_tests, board::proofs::Replies::goes_up, plan::proofs::Calls::read_faulty, plan::proofs::Calls::read_ends, crate::proofs::Calls::planned_fewest, crate::proofs::Calls::passed_ours), unfolding(crate::specs::Answer::checker_answer, crate::specs::Answer::route_number))]
pub fn check_route(task: &[u8], letters: &[u8]) -> Result<u64, Refusal>
    ensures { reply_of result ≡ checker_answer task.now letters.now }
{
    let ends = Task::read(task)?;
    let plan = ends.plan();
    verdict::letters_verdict(&ends, plan.shortest(), letters)?;
    if numbering::is_first(task, plan.routes(), letters) {
        Ok(0)
    } else {
        Ok(1)
    }
}
