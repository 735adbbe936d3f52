// Gather and Plan: the fewest moves to stack a position, and between the two positions of a task.
#![tactic(auto)]

mod answer;
pub mod crossing;
pub mod stack;
mod task;
mod together;
pub mod tower;

ghost use Rattle.std.specs.Prelude.{◌≡◌};
ghost use Rattle.board.specs.Refusal.{reply_of};
ghost use Rattle.plan.specs.Answer.{gather_answer, plan_answer};

pub use answer::{Lengths, Plan, Way};
use board::Refusal;
pub use task::Task;

// Gather: the fewest moves that stack a position on a peg. Refuses with 2, and with 3 for a byte or the peg.
#[tactic(auto, using(std::proofs::lemmas::Bool::Decides::nat_tests, board::proofs::Tasks::position_accepted, crate::proofs::Sound::position_gatherable), unfolding(crate::specs::Answer::gather_answer))]
pub fn gather(position: &[u8], peg: u8) -> Result<u64, Refusal>
    ensures { reply_of result ≡ gather_answer position.now peg }
{
    board::position_verdict(position)?;
    if peg < 3 {
        Ok(stack::gather_discs(position, position.len(), peg))
    } else {
        Err(Refusal::NotAPeg)
    }
}

// Plan: the plan of a task. Refuses with the task faults.
#[tactic(auto, using(board::proofs::Replies::goes_up, crate::proofs::Calls::read_planned, crate::proofs::Calls::read_refused))]
pub fn plan(task: &[u8]) -> Result<Plan, Refusal>
    ensures { reply_of result ≡ plan_answer task.now }
{
    let task = Task::read(task)?;
    Ok(task.plan())
}
