// The session record.
use crate::counting::Counts;
use board::LIMIT;

// n discs; the start, the goal and the current position, unused bytes 0; the counts; how many plays were refused with 8 or 9;
// the fewest moves from current to goal.
// Stays: arrays with n beside them, as `sound` and `PositionsHeld` of specs/Record have it: a record that is not sound is a value too.
#[derive(Clone, Copy, Debug, PartialEq, Eq)]
pub struct Session {
    pub n: usize,
    pub start: [u8; LIMIT],
    pub goal: [u8; LIMIT],
    pub current: [u8; LIMIT],
    pub counts: Counts,
    pub fumbles: u64,
    pub remaining: u64,
}
