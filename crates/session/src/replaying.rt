// A whole list of plays on a record.
ghost use Rattle.std.specs.Prelude.{◌≡◌};
ghost use Rattle.session.specs.Sessions.{record_after, calls_from};

use crate::playing::step;
use crate::record::Session;

// The record after a list of plays, each a from and a to, refused ones among them. A last byte by itself is passed over.
#[tactic(auto, using(crate::proofs::Replays::replay_next, crate::proofs::Replays::replay_end), unfolding(crate::specs::Sessions::record_next))]
pub fn replay(mut session: Session, plays: &[u8]) -> Session
    ensures { result ≡ record_after session (calls_from plays.now) }
{
    let (pairs, _) = plays.as_chunks::<2>();
    for [from, to] in pairs {
        session = step(session, *from, *to).session;
    }
    session
}
