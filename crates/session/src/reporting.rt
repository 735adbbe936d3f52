// Report: the counts of a record, what remains, and the excess.
ghost use Rattle.std.specs.Prelude.{true, ◌≡◌};
ghost use Rattle.board.specs.Refusal.{reply_of};
ghost use Rattle.session.specs.Answer.{report_answer};
ghost use Rattle.session.specs.Counts.{figures_of};
ghost use Rattle.session.specs.Record.{first_of, now_of, sound};

use crate::counting::Figures;
use crate::record::Session;
use board::Refusal;

impl Session {
    // What a report says of a sound record.
    fn figures(&self) -> Figures
        requires { sound self.now ≡ true }
        ensures { result ≡ figures_of self.now.counts (now_of self.now) (first_of self.now) }
    {
        let first = self.fewest_from(&self.start);
        Figures {
            counts: self.counts,
            remaining: self.remaining,
            excess: self.counts.excess(self.remaining, first),
        }
    }
}

// Report: the figures of a record. Refuses with 10.
#[tactic(auto, unfolding(crate::specs::Answer::report_answer))]
pub fn report(s: Session) -> Result<Figures, Refusal>
    ensures { reply_of result ≡ report_answer s }
{
    if s.is_sound() {
        Ok(s.figures())
    } else {
        Err(Refusal::UnsoundRecord)
    }
}
