// Batch: the shortest lengths of many tasks of one size in one call.
#![tactic(auto)]

mod entries;

ghost use Rattle.std.specs.Prelude.{◌≡◌, ◌≤◌};
ghost use Rattle.board.specs.Task.{limit};
ghost use Rattle.board.specs.Refusal.{reply_of};
ghost use Rattle.batch.specs.Answer.{batch_answer, batch_writes};
ghost use Rattle.batch.specs.Tasks.{tasks_in};

use board::{LIMIT, Refusal};

// How many tasks of n discs there are in so many bytes; of no discs none.
fn tasks_in(n: usize, bytes: usize) -> usize
    requires { n ≤ limit }
    ensures { result ≡ tasks_in n bytes }
{
    if n == 0 { 0 } else { bytes / (2 * n) }
}

// Batch: writes the shortest length of each of many tasks of n discs, laid end to end, as C gets it from the single call, and answers how
// many tasks there are; later entries stay. Refuses with 2, 13 and 6, and then writes nothing.
#[tactic(auto, using(std::proofs::lemmas::Bool::Decides::nat_tests, crate::proofs::Cuts::tasks_within), unfolding(crate::specs::Answer::batch_answer, crate::specs::Answer::batch_writes))]
pub fn batch(n: u64, tasks: &[u8], out: &mut [u64]) -> Result<usize, Refusal>
    ensures result_value { reply_of result ≡ batch_answer n tasks.now out.old }
    ensures out_after { out.new ≡ batch_writes n tasks.now out.old }
{
    if (LIMIT as u64) < n {
        return Err(Refusal::TooManyDiscs);
    }
    let count = tasks_in(n as usize, tasks.len());
    let size = 2 * n as usize;
    let covered = count * size;
    if covered != tasks.len() {
        return Err(Refusal::NotWholeTasks);
    }
    if out.len() < count {
        return Err(Refusal::ShortBuffer);
    }
    entries::write_entries(tasks, size, &mut out[..count]);
    Ok(count)
}
