// What Move, Place, Run, Parts and Wear begin with: the task faults, and 4 for the route number; and for the list calls 5 and 6.
ghost use Rattle.std.specs.Prelude.{◌≡◌};
ghost use Rattle.route.specs.Inner.Open.{opened_reply, open_answer, list_answer};

use crate::opened::Opened;
use board::Refusal;
use plan::Task;

// The task opened at a route, where it has one of that number. Refuses with the task faults and 4.
#[tactic(auto, using(std::proofs::lemmas::Bool::Decides::nat_tests, board::proofs::Replies::goes_up, crate::proofs::Calls::Opened::read_opened), unfolding(crate::specs::Inner::Open::open_answer, crate::specs::Answer::route_check))]
pub fn open_route(task: &[u8], route: u64) -> Result<Opened<'_>, Refusal>
    ensures { opened_reply result ≡ open_answer task.now route }
{
    let task = Task::read(task)?;
    let plan = task.plan();
    if plan.routes() <= route {
        return Err(Refusal::NoSuchRoute);
    }
    Ok(Opened { task, plan, route })
}

// The task opened at a route that is to be written from an index on into so many bytes, where a move takes `size`. Refuses with the task
// faults, 4, 5 and 6.
#[tactic(auto, using(std::proofs::lemmas::Bool::Decides::nat_tests, board::proofs::Replies::goes_up, crate::proofs::Calls::Opened::opens), unfolding(crate::specs::Inner::Open::list_answer, crate::specs::Inner::Open::list_check))]
pub fn open_list(
    task: &[u8],
    route: u64,
    first: u64,
    room: usize,
    size: usize,
) -> Result<Opened<'_>, Refusal>
    ensures { opened_reply result ≡ list_answer task.now route first room size }
{
    let opened = open_route(task, route)?;
    let moves = opened.plan.shortest();
    if moves < first {
        return Err(Refusal::NoSuchIndex);
    }
    if first < moves && room < size {
        return Err(Refusal::ShortBuffer);
    }
    Ok(opened)
}
