// Play on a record that the caller lends.
ghost use Rattle.std.specs.Prelude.{◌≡◌};
ghost use Rattle.board.specs.Refusal.{reply_of};
ghost use Rattle.session.specs.Answer.{play_answer, play_leaves};

use crate::counting::Mark;
use crate::playing::{Stepped, step};
use crate::record::Session;
use board::Refusal;

// Play: makes a play on the lent record itself, and answers its mark. A refused play leaves the record as it was, but for one fumble more
// where it is refused with 8 or 9.
pub fn play(session: &mut Session, from: u8, to: u8) -> Result<Mark, Refusal>
    ensures { (reply_of result ≡ play_answer session.old (record { from = from; to = to }))
        × (session.new ≡ play_leaves session.old (record { from = from; to = to })) }
{
    let stepped = step(*session, from, to);
    *session = stepped.session;
    stepped.played
}

// Play itself, on a record by value.
// Stays: beside `step`, which promises the same: both are public functions, and what may not change keeps each.
pub fn play_on(mut session: Session, from: u8, to: u8) -> Stepped
    ensures { (reply_of result.played ≡ play_answer session (record { from = from; to = to }))
        × (result.session ≡ play_leaves session (record { from = from; to = to })) }
{
    let played = play(&mut session, from, to);
    Stepped { played, session }
}
