// Hinz's recurrences: the terms of a board from those of the board with one disc less.
ghost use Rattle.std.specs.Prelude.{◌≡◌, ◌≤◌};
ghost use Rattle.averages.specs.Answer.{totals_limit};
ghost use Rattle.averages.specs.Inner.Next.{next_of, totals_in};
ghost use Rattle.averages.specs.Terms.{terms_of, Fits};

use crate::answer::Totals;

// The terms of k discs: 2^k, 3^k, Hinz's u, v, x and y, the sum of the fewest moves and the number of ties.
#[derive(Clone, Copy)]
pub struct Terms {
    pub two: u64,
    pub three: u64,
    pub u: u64,
    pub v: u64,
    pub x: u64,
    pub y: u64,
    pub sum: u64,
    pub ties: u64,
}

impl Terms {
    // No discs.
    #[tactic(auto, unfolding(crate::specs::Terms::terms_of, crate::specs::Hinz::u, crate::specs::Hinz::v, crate::specs::Hinz::x, crate::specs::Hinz::y, crate::specs::Hinz::sum_by, crate::specs::Hinz::ties_by))]
    fn none() -> Terms
        ensures { result ≡ terms_of 0 }
    {
        Terms {
            two: 1,
            three: 1,
            u: 0,
            v: 0,
            x: 0,
            y: 0,
            sum: 0,
            ties: 0,
        }
    }

    // One disc more.
    fn next(self) -> Terms
        requires { Fits self }
        ensures { result ≡ next_of self }
    {
        let Terms {
            two,
            three,
            u,
            v,
            x,
            y,
            sum,
            ties,
        } = self;
        let six = two * three;
        let nine = three * three;
        Terms {
            two: 2 * two,
            three: 3 * three,
            u: 2 * u + 2 * v + (three + 1) * (six - 1) / 5,
            v: 2 * u + 3 * v + (six - 1) / 5 + six * (three - 1) / 2,
            x: 2 * x + 2 * y + 1,
            y: 2 * x + 3 * y + 1,
            sum: 3 * sum + 2 * nine * (4 * two - 1) - 6 * u,
            ties: 3 * ties + 6 * x,
        }
    }

    // The terms of n discs, from those of none up.
    #[tactic(auto, using(crate::proofs::TermsFit::terms_fit))]
    pub fn of(n: u64) -> Terms
        requires { n ≤ totals_limit }
        ensures { result ≡ terms_of n }
    {
        let mut terms = Terms::none();
        for _ in 0..n {
            terms = terms.next();
        }
        terms
    }
}

// Those of them that are answered.
impl From<Terms> for Totals {
    ghost from_gives = { λ terms totals. totals ≡ totals_in terms };

    fn from(terms: Terms) -> Totals {
        Totals {
            sum: terms.sum,
            ties: terms.ties,
        }
    }
}
