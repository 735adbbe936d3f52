// Parts: the parts of the plan behind many moves of a shortest route at once, a letter each.
#![tactic(auto)]

mod course;

ghost use Rattle.std.specs.Prelude.{◌++◌, map, ◌≡◌, ◌-◌, ◌≤◌, min, length, take, drop};
ghost use Rattle.plan.specs.Plan.{shortest};
ghost use Rattle.board.specs.Refusal.{reply_of};
ghost use Rattle.route.specs.Part.{part_letter, parts_of};
ghost use Rattle.parts.specs.Answer.{parts_answer, parts_writes};

use board::Refusal;
use route::Opened;
use route::opening::open_list;

// Parts: writes the letters of the parts of a shortest route from an index on, a byte a move, as many as remain or fit, and answers how
// many. Refuses with the task faults, 4, 5 and 6, and then writes nothing.
#[tactic(auto, using(board::proofs::Replies::goes_up, crate::proofs::Calls::unlisted, route::proofs::Calls::Lists::list_opened))]
pub fn parts(task: &[u8], route: u64, first: u64, out: &mut [u8]) -> Result<usize, Refusal>
    ensures result_value { reply_of result ≡ parts_answer task.now route first out.old }
    ensures out_after { out.new ≡ parts_writes task.now route first out.old }
{
    let opened = open_list(task, route, first, out.len(), 1)?;
    Ok(parts_from(&opened, first, out))
}

// Writes the letters of a route from an index on, as many as remain or fit, and answers how many.
#[tactic(auto, using(route::proofs::Calls::Routes::opened_course, crate::proofs::Stretches::opened_bound, crate::proofs::Stretches::opened_parts))]
fn parts_from(opened: &Opened, first: u64, out: &mut [u8]) -> usize
    requires { first ≤ shortest opened.now.plan }
    ensures value { result ≡ min (shortest opened.now.plan - first) (length out.old) }
    ensures out_after { out.new ≡ map part_letter (take result (drop first (parts_of opened.now.task.start.now opened.now.task.goal.now opened.now.route))) ++ drop result out.old }
{
    if opened.plan.largest == 0 {
        return 0;
    }
    course::write_course(opened.course(), opened.plan.shortest(), first, out)
}
