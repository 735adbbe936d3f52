// Begin: the record of a task.
ghost use Rattle.std.specs.Prelude.{◌≡◌, ◌++◌};
ghost use Rattle.session.specs.Answer.{no_session, opened as opened_of, begin_reply, begin_answer, session_or};

use crate::counting::Counts;
use crate::record::Session;
use board::{LIMIT, Refusal, padded_array};
use plan::Task;

// Begin's answer: the record beside the verdict. Where the task is refused it is no sound record.
// Stays: a struct of both and no Result of one, since the contract says what the record is after a refusal too.
#[derive(Clone, Copy, Debug, PartialEq, Eq)]
pub struct Begun {
    pub verdict: Result<(), Refusal>,
    pub session: Session,
}

// A record of more discs than there can be.
fn no_session() -> Session
    ensures { result ≡ no_session }
{
    let zeros = [0; LIMIT];
    Session {
        n: LIMIT + 1,
        start: zeros,
        goal: zeros,
        current: zeros,
        counts: Counts::none(),
        fumbles: 0,
        remaining: 0,
    }
}

// The record of a task.
#[tactic(auto, using(board::proofs::Tasks::joined_task, plan::proofs::Sound::ends_fewest))]
fn opened(task: &Task) -> Session
    ensures { result ≡ opened_of (task.now.start.now ++ task.now.goal.now) }
{
    let start = padded_array(task.start);
    let goal = padded_array(task.goal);
    Session {
        n: task.discs(),
        start,
        goal,
        current: start,
        counts: Counts::none(),
        fumbles: 0,
        remaining: task.plan().shortest(),
    }
}

// Begin: the record of a task. Refuses with the task faults, beside a record that Play and Report refuse.
#[tactic(auto, using(crate::proofs::Calls::read_begun, crate::proofs::Calls::read_unbegun))]
pub fn begin(task: &[u8]) -> Begun
    ensures result_value { begin_reply result ≡ begin_answer task.now }
    ensures session_value { result.session ≡ session_or (begin_answer task.now) }
{
    match Task::read(task) {
        Err(why) => Begun {
            verdict: Err(why),
            session: no_session(),
        },
        Ok(task) => Begun {
            verdict: Ok(()),
            session: opened(&task),
        },
    }
}
