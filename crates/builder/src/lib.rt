// Tasks built up disc by disc: a position and its three gather lengths, brought up to date with each largest disc.
#![tactic(auto)]

mod building;
mod lengths;
mod record;
mod sound;

pub use building::{Built, add, remove};
pub use record::{Builder, empty};
