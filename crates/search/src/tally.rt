// What the search of a size counts.
use std::fmt;

// Comparisons of one kind: how many hold, and how many fail.
#[derive(Clone, Copy, Default)]
pub struct Count {
    right: u64,
    wrong: u64,
}

impl Count {
    // One comparison more.
    pub fn add(&mut self, holds: bool) {
        let count = if holds {
            &mut self.right
        } else {
            &mut self.wrong
        };
        *count = count.saturating_add(1);
    }
}

// The fields of a line.
#[derive(Clone, Copy, Default)]
pub struct Tally {
    pub pairs: u64,
    pub sum: u64,
    pub ties: u64,
    pub lengths: Count,
    pub counts: Count,
    pub routes: Count,
    pub parts: Count,
    pub wears: Count,
    pub known: Count,
    pub lists: Count,
    pub moves: u64,
    pub located: Count,
    pub totals: Count,
}

impl Tally {
    // A pair of a distance and a number of shortest lists.
    pub fn add_pair(&mut self, distance: u64, lists: u64) {
        self.pairs = self.pairs.saturating_add(1);
        self.sum = self.sum.saturating_add(distance);
        self.ties = self.ties.saturating_add(u64::from(lists == 2));
        self.moves = self.moves.saturating_add(distance.saturating_mul(lists));
    }

    // The totals of n discs, by what Totals answers.
    pub fn add_totals(&mut self, n: u64) {
        let totals = averages::totals(n);
        self.totals
            .add(totals.is_ok_and(|totals| totals.sum == self.sum));
        self.totals
            .add(totals.is_ok_and(|totals| totals.ties == self.ties));
    }

    // The comparisons that fail.
    fn wrong(&self) -> u64 {
        [
            self.lengths,
            self.counts,
            self.routes,
            self.parts,
            self.wears,
            self.known,
            self.lists,
            self.located,
            self.totals,
        ]
        .iter()
        .fold(0u64, |wrong, count| wrong.saturating_add(count.wrong))
    }
}

impl fmt::Display for Tally {
    fn fmt<W: fmt::Write>(&self, f: &mut fmt::Formatter<W>) -> fmt::Result {
        write!(
            f,
            "pairs {}, sum {}, ties {}, ",
            self.pairs, self.sum, self.ties
        )?;
        write!(
            f,
            "lengths {}, counts {}, routes {}, parts {}, wears {}, known {}, lists {}, ",
            self.lengths.right,
            self.counts.right,
            self.routes.right,
            self.parts.right,
            self.wears.right,
            self.known.right,
            self.lists.right
        )?;
        write!(
            f,
            "moves {}, located {}, totals {}, wrong {}",
            self.moves,
            self.located.right,
            self.totals.right,
            self.wrong()
        )
    }
}
