// Locate: the place of a position on the shortest routes of a task.
ghost use Rattle.std.specs.Prelude.{◌≡◌, length};
ghost use Rattle.board.specs.Position.{WellFormed};
ghost use Rattle.route.specs.Answer.{locate_reply, where_is, located_at, locate_answer};

use crate::answer::Located;
use crate::opened::Opened;
use board::Refusal;
use plan::Task;
use plan::crossing::plan_between;

// Where a position is on the shortest routes of a task: on one exactly if the fewest moves by way of it are the fewest, at the index that
// is the fewest to it.
#[tactic(auto, using(crate::proofs::Calls::ByPlans::by_plans))]
fn locate_on(task: &Task, position: &[u8]) -> Option<Located>
    requires position_len { length position.now ≡ length task.now.start.now }
    requires well_formed { WellFormed position.now }
    ensures { where_is result ≡ located_at task.now.start.now task.now.goal.now position.now }
{
    let plan = task.plan();
    let moves_to = plan_between(task.start, position).shortest();
    let moves_from = plan_between(position, task.goal).shortest();
    if moves_to + moves_from != plan.shortest() {
        return None;
    }
    let first = Opened {
        task: *task,
        plan,
        route: 0,
    };
    let pegs = first.pegs(moves_to);
    let on_first = board::same_position(position, &pegs[..position.len()]);
    Some(Located {
        index: moves_to,
        route: if on_first { 0 } else { 1 },
    })
}

// Locate: where a position is on the shortest routes of a task, if it is on one. Refuses with the task faults, 7 and 3 for the position.
#[tactic(auto, using(std::proofs::lemmas::Bool::Decides::nat_tests, board::proofs::Replies::goes_up, plan::proofs::Calls::read_faulty), unfolding(crate::specs::Answer::locate_answer))]
pub fn locate(task: &[u8], position: &[u8]) -> Result<Option<Located>, Refusal>
    ensures { locate_reply result ≡ locate_answer task.now position.now }
{
    let task = Task::read(task)?;
    if position.len() != task.discs() {
        return Err(Refusal::WrongSize);
    }
    if !board::only_pegs(position) {
        return Err(Refusal::NotAPeg);
    }
    Ok(locate_on(&task, position))
}
