// Plan, Gather, Run and Batch for C: each answer is one number of 64 bits. Refusal k comes as 2^64 - k, which no other answer reaches.
// What C owes: behind each pointer as many bytes, or numbers of 64 bits, as the length after it says, and an `out` that shares no byte
// with what is read.
#![tactic(auto)]

ghost use Rattle.std.specs.Prelude.{◌≡◌};
ghost use Rattle.batch.specs.Answer.{batch_answer, batch_writes};
ghost use Rattle.route.specs.Answer.{run_writes};
ghost use Rattle.word.specs.Words.{shortest_word, Tells};
ghost use Rattle.towers.specs.Words.{routes_word, gather_word, run_word, batch_word};

use word::{shortest_word, word_of};

// Plan's shortest: the fewest moves of a task.
#[unsafe(no_mangle)]
pub extern "C" fn tower_shortest(task: &[u8]) -> u64
    ensures { result ≡ shortest_word task.now }
{
    shortest_word(task)
}

// Plan's count: how many shortest routes a task has.
#[unsafe(no_mangle)]
pub extern "C" fn tower_routes(task: &[u8]) -> u64
    ensures { result ≡ routes_word task.now }
{
    word_of(plan::plan(task).map(|plan| plan.routes()))
}

// Gather: the fewest moves that stack a position on a peg.
#[unsafe(no_mangle)]
pub extern "C" fn tower_gather(position: &[u8], peg: u8) -> u64
    ensures { result ≡ gather_word position.now peg }
{
    word_of(plan::gather(position, peg))
}

// Run: writes moves of a shortest route from an index on as letter pairs, and says how many. Refused, it writes nothing.
#[unsafe(no_mangle)]
pub extern "C" fn tower_run(task: &[u8], route: u64, first: u64, out: &mut [u8]) -> u64
    ensures value { result ≡ run_word task.now route first out.old }
    ensures out_after { out.new ≡ run_writes task.now route first out.old }
{
    word_of(run::run(task, route, first, out).map(|moves| moves as u64))
}

// Batch: writes the shortest length of each of many tasks of n discs, laid end to end, as `tower_shortest` answers it, and says how many
// tasks there are. Refused, it writes nothing.
#[unsafe(no_mangle)]
pub extern "C" fn tower_batch(n: u64, tasks: &[u8], out: &mut [u64]) -> u64
    ensures value { result ≡ batch_word n tasks.now out.old }
    ensures out_after { out.new ≡ batch_writes n tasks.now out.old }
    ensures tells { Tells result (batch_answer n tasks.now out.old) }
{
    word_of(batch::batch(n, tasks, out).map(|count| count as u64))
}
