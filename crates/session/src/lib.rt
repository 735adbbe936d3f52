// Begin, Play and Report: a subject's session on a task.
#![tactic(auto)]

mod beginning;
mod counting;
mod lending;
mod playing;
mod record;
mod replaying;
mod reporting;
mod sound;

pub use beginning::{Begun, begin};
pub use counting::{Counts, Figures, Mark, PLAY_LIMIT};
pub use lending::{play, play_on};
pub use playing::{Stepped, step};
pub use record::Session;
pub use replaying::replay;
pub use reporting::report;
