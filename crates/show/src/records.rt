// A session record in print.
ghost use Rattle.std.specs.Prelude.{Some};
ghost use Rattle.show.specs.Printed.{record_text};

use crate::positions::held;
use session::Session;
use std::fmt;

// A session record, field by field, each position by its n discs.
#[derive(Clone, Copy)]
pub struct Record<'a>(pub &'a Session);

impl fmt::Display for Record<'_> {
    ghost output = { λ r. Some (record_text r.0.now) };

    fn fmt<W: fmt::Write>(&self, f: &mut fmt::Formatter<W>) -> fmt::Result {
        let s = self.0;
        write!(
            f,
            "n {}, start {}, goal {}, current {}, {}, fumbles {}, remaining {}",
            s.n,
            held(s.n, &s.start),
            held(s.n, &s.goal),
            held(s.n, &s.current),
            s.counts,
            s.fumbles,
            s.remaining
        )
    }
}
