// The board's vocabulary in code: pegs, positions, tasks, moves and refusals (document 01).
#![tactic(auto)]

mod held;
mod legal;
mod peg;
mod position;
mod refusal;
mod task;

pub use held::{holds_position, padded_array};
pub use legal::{legal_verdict, top_of};
pub use peg::{Letter, third};
pub use position::{LIMIT, only_pegs, position_verdict, same_position};
pub use refusal::Refusal;
pub use task::task_verdict;
