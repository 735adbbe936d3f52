// How the programs print answers: each in one way, as a value with a Display.
#![tactic(auto)]

mod answers;
mod positions;
mod records;

pub use answers::{Answer, Found, Moved, Written, verdict};
pub use positions::{Digits, held};
pub use records::Record;
