// A reply as one number of 64 bits, as the C host gets it. Refusal k comes as 2^64 - k, which no other answer reaches.
#![tactic(auto)]

ghost use Rattle.std.specs.Prelude.{◌≡◌};
ghost use Rattle.board.specs.Refusal.{number, reply_of};
ghost use Rattle.board.specs.Reply.{refused};
ghost use Rattle.word.specs.Words.{word, shortest_word};

use board::Refusal;

// The number that a refusal comes as.
pub fn refusal_word(why: Refusal) -> u64
    ensures { result ≡ word (refused (number why)) }
{
    u64::MAX - why.number() + 1
}

// The number that an answer comes as: itself, or that of its refusal.
pub fn word_of(answer: Result<u64, Refusal>) -> u64
    ensures { result ≡ word (reply_of answer) }
{
    answer.unwrap_or_else(refusal_word)
}

// Plan's shortest: the fewest moves of a task.
pub fn shortest_word(task: &[u8]) -> u64
    ensures { result ≡ shortest_word task.now }
{
    word_of(plan::plan(task).map(|plan| plan.shortest()))
}
