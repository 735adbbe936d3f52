// Run: many moves of a shortest route at once, each without a fresh plan.
#![tactic(auto)]

pub mod pegs;
mod start;
mod stepper;
mod write;

ghost use Rattle.std.specs.Prelude.{◌++◌, ◌≡◌, ◌*◌, ◌-◌, ◌/◌, ◌≤◌, min, length, take, drop};
ghost use Rattle.plan.specs.Plan.{shortest};
ghost use Rattle.board.specs.Refusal.{reply_of};
ghost use Rattle.route.specs.Answer.{letters, run_answer, run_writes};
ghost use Rattle.route.specs.Route.{route_of};

use board::Refusal;
use route::Opened;
use route::count::lesser;
use route::opening::open_list;

// Run: writes moves of a shortest route from an index on as letter pairs, as many as remain or fit, and answers how many. Refuses with
// the task faults, 4, 5 and 6, and then writes nothing.
#[tactic(auto, using(board::proofs::Replies::goes_up, crate::proofs::Calls::unlisted, route::proofs::Calls::Lists::list_opened))]
pub fn run(task: &[u8], route: u64, first: u64, out: &mut [u8]) -> Result<usize, Refusal>
    ensures result_value { reply_of result ≡ run_answer task.now route first out.old }
    ensures out_after { out.new ≡ run_writes task.now route first out.old }
{
    let opened = open_list(task, route, first, out.len(), 2)?;
    Ok(run_from(&opened, first, out))
}

// Writes the moves of a route from an index on, as many as remain or fit, and answers how many.
#[tactic(auto, unfolding(route::specs::Answer::letters))]
fn run_from(opened: &Opened, first: u64, out: &mut [u8]) -> usize
    requires { first ≤ shortest opened.now.plan }
    ensures value { result ≡ min (shortest opened.now.plan - first) (length out.old / 2) }
    ensures out_after { out.new ≡ letters (take result (drop first (route_of opened.now.task.start.now opened.now.task.goal.now opened.now.route))) ++ drop (2 * result) out.old }
{
    let count = lesser(opened.plan.shortest() - first, out.len() / 2);
    if 0 < count {
        let stepper = start::start_at(opened, first);
        write::write_moves(stepper, opened.task.goal, count, out);
    }
    count
}
