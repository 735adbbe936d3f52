// Proving about one's own calls: three functions whose contracts follow from the laws of the calls that they make.
ghost use Rattle.std.specs.Prelude.{true, ◌≡◌};
ghost use Rattle.board.specs.Fault.{Faultless, task_faults};
ghost use Rattle.board.specs.Fewest.{fewest};
ghost use Rattle.board.specs.Task.{start, goal};
ghost use Rattle.session.specs.Answer.{opened};
ghost use Rattle.session.specs.Record.{current_of};
ghost use Rattle.session.specs.Sessions.{record_after, calls_from};

use board::LIMIT;

// Of a task without faults, the fewest moves; of any other the contract says nothing.
#[tactic(auto, using(plan::proofs::Calls::plan_accepts, plan::proofs::Calls::plan_fewest, board::proofs::Replies::refused_answer))]
pub fn fewest_of(task: &[u8]) -> u64
    ensures { Faultless (task_faults task.now) → result ≡ fewest (start task.now) (goal task.now) }
{
    plan::plan(task).map_or(0, |plan| plan.shortest())
}

// Whether Locate gives back the index of a position that Place writes. Where Place is refused there is none to give back.
pub fn leads_back(task: &[u8], route: u64, index: u64) -> bool
    ensures { result ≡ true }
{
    let mut pegs = [0; LIMIT];
    match route::place(task, route, index, &mut pegs) {
        Err(_) => true,
        Ok(()) => {
            let position = &pegs[..task.len() / 2];
            route::locate(task, position).is_ok_and(|at| at.is_some_and(|on| on.index == index))
        },
    }
}

// Of a task without faults, the moves that remain after a list of plays, each a from and a to.
pub fn remaining_after(task: &[u8], plays: &[u8]) -> u64
    ensures { Faultless (task_faults task.now) → result ≡ fewest (current_of (record_after (opened task.now) (calls_from plays.now))) (goal task.now) }
{
    let begun = session::begin(task);
    session::report(session::replay(begun.session, plays)).map_or(0, |figures| figures.remaining)
}
