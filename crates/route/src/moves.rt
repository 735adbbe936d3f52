// Move: any move of a shortest route and the part of the plan behind it, without walking it.
ghost use Rattle.std.specs.Prelude.{◌≡◌, ◌<◌};
ghost use Rattle.plan.specs.Plan.{shortest};
ghost use Rattle.route.specs.Answer.{move_reply, move_answer, part_reply, part_answer};
ghost use Rattle.route.specs.Part.{parts_of, part_at};
ghost use Rattle.route.specs.Route.{route_of, move_at};

use crate::answer::DiscMove;
use crate::opened::Opened;
use crate::opening::open_route;
use crate::part::Part;
use crate::stage;
use board::Refusal;

// The move of a route at an index below its length, and its part.
#[tactic(auto, using(crate::proofs::Calls::Routes::opened_course))]
fn route_move(opened: &Opened, index: u64) -> (DiscMove, Part)
    requires { index < shortest opened.now.plan }
    ensures result_value { result.0 ≡ move_at (route_of opened.now.task.start.now opened.now.task.goal.now opened.now.route) index }
    ensures part_value { result.1 ≡ part_at (parts_of opened.now.task.start.now opened.now.task.goal.now opened.now.route) index }
{
    let course = opened.course();
    let at = course.stage(index);
    (stage::stage_move(&opened.task, course, at), at.part())
}

// Move: the move of a shortest route at an index, and its part. Refuses with the task faults, 4 and 5.
#[tactic(auto, using(std::proofs::lemmas::Bool::Decides::nat_tests, board::proofs::Replies::goes_up, crate::proofs::Calls::Opened::opens), unfolding(crate::specs::Answer::move_answer, crate::specs::Answer::part_answer))]
pub fn move_at(task: &[u8], route: u64, index: u64) -> Result<(DiscMove, Part), Refusal>
    ensures result_value { move_reply result ≡ move_answer task.now route index }
    ensures part_value { part_reply result ≡ part_answer task.now route index }
{
    let opened = open_route(task, route)?;
    if opened.plan.shortest() <= index {
        return Err(Refusal::NoSuchIndex);
    }
    Ok(route_move(&opened, index))
}
