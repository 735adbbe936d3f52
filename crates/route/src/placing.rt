// Place: any position of a shortest route, without walking it.
ghost use Rattle.std.specs.Prelude.{◌≡◌};
ghost use Rattle.board.specs.Refusal.{reply_of};
ghost use Rattle.route.specs.Answer.{place_answer, place_writes};

use crate::opening::open_route;
use board::Refusal;

// Place: writes the position after so many moves of a shortest route into the first n bytes of the buffer. Refuses with the task
// faults, 4, 5 and 6, and then writes nothing.
#[tactic(auto, using(std::proofs::lemmas::Bool::Decides::nat_tests, board::proofs::Replies::goes_up, crate::proofs::Calls::Opened::opens), unfolding(crate::specs::Answer::place_answer, crate::specs::Answer::place_writes))]
pub fn place(task: &[u8], route: u64, index: u64, out: &mut [u8]) -> Result<(), Refusal>
    ensures result_value { reply_of result ≡ place_answer task.now route index out.old }
    ensures out_after { out.new ≡ place_writes task.now route index out.old }
{
    let opened = open_route(task, route)?;
    if opened.plan.shortest() < index {
        return Err(Refusal::NoSuchIndex);
    }
    let n = opened.task.discs();
    if out.len() < n {
        return Err(Refusal::ShortBuffer);
    }
    let pegs = opened.pegs(index);
    out[..n].copy_from_slice(&pegs[..n]);
    Ok(())
}
