// Wear: how often each disc moves on a shortest route.
#![tactic(auto)]

mod writing;

ghost use Rattle.std.specs.Prelude.{◌≡◌};
ghost use Rattle.board.specs.Refusal.{reply_of};
ghost use Rattle.wear.specs.Answer.{wear_answer, wear_writes};

use board::Refusal;
use plan::Task;
use route::Opened;

// Wear: writes how often each of discs 1 to n moves on a shortest route into the first n entries; later ones stay. Refuses with the task
// faults, 4 and 6, and then writes nothing.
#[tactic(auto, using(std::proofs::lemmas::Bool::Decides::nat_tests))]
pub fn wear(task: &[u8], route: u64, out: &mut [u64]) -> Result<(), Refusal>
    ensures result_value { reply_of result ≡ wear_answer task.now route out.old }
    ensures out_after { out.new ≡ wear_writes task.now route out.old }
{
    let task = Task::read(task)?;
    let plan = task.plan();
    let routes = plan.routes();
    if routes <= route {
        return Err(Refusal::NoSuchRoute);
    }
    if out.len() < task.discs() {
        return Err(Refusal::ShortBuffer);
    }
    let opened = Opened { task, plan, route };
    writing::write_wears(&opened, out);
    Ok(())
}
