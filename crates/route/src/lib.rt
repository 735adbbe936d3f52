// Move, Place and Locate: any move of a shortest route with the part of the plan behind it, any position, and from a position back to
// its index.
#![tactic(auto)]

mod answer;
pub mod count;
pub mod course;
mod gathering;
mod locating;
mod moves;
mod opened;
pub mod opening;
mod part;
mod passing;
pub mod pegs;
mod placing;
mod stage;

pub use answer::{DiscMove, Located};
pub use locating::locate;
pub use moves::move_at;
pub use opened::Opened;
pub use part::Part;
pub use placing::place;
