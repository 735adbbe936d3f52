// The gathers of both plans together, in one pass over both positions from the largest disc downwards.
ghost use Rattle.std.specs.Prelude.{◌≡◌, ◌<◌, ◌^◌};
ghost use Rattle.plan.specs.Inner.Together.{after};

// One plan's gathers: the pegs that the next disc of the start and of the goal is to be on, and the sum so far.
#[derive(Clone, Copy)]
pub struct Gathers {
    pub start: u8,
    pub goal: u8,
    pub sum: u64,
}

impl Gathers {
    // After a disc that is on x in the start and on y in the goal. The sum doubles, and gains one for each of the two that is not on its
    // target. There is no branch on a peg, and a compiler keeps all of it in registers.
    pub fn passed(self, x: u8, y: u8) -> Gathers
        requires targets { (self.start < 3) × (self.goal < 3) }
        requires pegs { (x < 3) × (y < 3) }
        requires room { self.sum < 2 ^ 62 }
        ensures { result ≡ after self x y }
    {
        Gathers {
            start: board::third(self.start, x),
            goal: board::third(self.goal, y),
            sum: 2 * self.sum + (x != self.start) as u64 + (y != self.goal) as u64,
        }
    }
}
