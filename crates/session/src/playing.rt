// Play: one move on a record's current position.
ghost use Rattle.std.specs.Prelude.{◌≡◌, ◌+◌, ◌<◌, ◌^◌};
ghost use Rattle.board.specs.Refusal.{number, reply_of};
ghost use Rattle.board.specs.Reply.{pass};
ghost use Rattle.session.specs.Answer.{play_check, play_answer, play_leaves, refused_record};
ghost use Rattle.session.specs.Counts.{fumble as fumble_of};

use crate::counting::{Mark, fumble};
use crate::record::Session;
use board::Refusal;

// A play's answer and the record after it.
// Stays: a struct of both and no Result of one, since the contract says what the record is after a refusal too.
#[derive(Clone, Copy, Debug, PartialEq, Eq)]
pub struct Stepped {
    pub played: Result<Mark, Refusal>,
    pub session: Session,
}

impl Session {
    // The first fault of a play.
    #[tactic(auto, using(crate::proofs::Soundness::sound_few), unfolding(crate::specs::Answer::play_check))]
    fn play_verdict(&self, from: u8, to: u8) -> Result<(), Refusal>
        ensures { reply_of result ≡ play_check self.now (record { from = from; to = to }) }
    {
        if !self.is_sound() {
            return Err(Refusal::UnsoundRecord);
        }
        if self.counts.is_full(self.fumbles) {
            return Err(Refusal::TooManyPlays);
        }
        board::legal_verdict(&self.current[..self.n], from, to)
    }

    // The record after a refused play: one fumble more where it was refused with 8 or 9.
    fn refused(&self, why: Refusal) -> Session
        requires { self.now.fumbles + fumble_of (number why) < 2 ^ 64 }
        ensures { result ≡ refused_record self.now (number why) }
    {
        Session {
            fumbles: self.fumbles + fumble(why),
            ..*self
        }
    }

    // An accepted play: the disc moves, the play is counted, and what remains is set anew. The record being sound, what remained
    // before is at hand, and one fewest is worked out.
    fn accepted(&self, from: u8, to: u8) -> Stepped
        requires { play_check self.now (record { from = from; to = to }) ≡ pass }
        ensures { (reply_of result.played ≡ play_answer self.now (record { from = from; to = to }))
            × (result.session ≡ play_leaves self.now (record { from = from; to = to })) }
    {
        let mut session = *self;
        let disc = board::top_of(&self.current[..self.n], from);
        session.current[disc] = to;
        session.remaining = session.fewest_from(&session.current);
        let mark = Mark::of(self.remaining, session.remaining);
        session.counts = self.counts.with(mark);
        Stepped {
            played: Ok(mark),
            session,
        }
    }
}

// Play on a record by value: the mark of a move, and the record after it. Refuses with 10, 11, 3, 8 and 9: after 8 and 9 the record has
// one fumble more, after the others it is as it was.
#[tactic(auto, using(crate::proofs::Calls::play_fits), unfolding(crate::specs::Answer::play_answer, crate::specs::Answer::play_leaves))]
pub fn step(s: Session, from: u8, to: u8) -> Stepped
    ensures { (reply_of result.played ≡ play_answer s (record { from = from; to = to }))
        × (result.session ≡ play_leaves s (record { from = from; to = to })) }
{
    match s.play_verdict(from, to) {
        Err(why) => Stepped {
            played: Err(why),
            session: s.refused(why),
        },
        Ok(()) => s.accepted(from, to),
    }
}
