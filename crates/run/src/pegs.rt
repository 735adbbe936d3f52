// A position as the topmost disc of each peg and the disc beneath each disc, n + 1 for none: a move changes three numbers of it. They are
// numbers of 64 bits, which the compiler need not widen before it indexes by them.
ghost use Rattle.std.specs.Prelude.{◌≡◌, ◌<◌, ◌≤◌, length};
ghost use Rattle.board.specs.Position.{WellFormed};
ghost use Rattle.board.specs.Task.{limit};
ghost use Rattle.run.specs.Inner.Pegs.{Holds, Carries, shifted};

use board::LIMIT;

// What `Pegs::of` begins with: no disc. It is copied from here, since filling an array would take the C library's `memset`, and the archive
// needs `memcpy` alone.
const UNUSED: &[usize; LIMIT] = &[LIMIT + 1; LIMIT];

// Stays: arrays and no `Vec`, since the library has no heap; and n + 1 for none, as `Holds` of specs/Inner/Pegs has it.
#[derive(Clone, Copy)]
pub struct Pegs {
    pub top: [usize; 3],
    pub beneath: [usize; LIMIT],
}

impl Pegs {
    // The pegs of a position, from its largest disc to its smallest: each goes onto what its peg has by then.
    // Stays: the clause and no `Task`, which would be no plainer: the position is one on a route, or a part of a task's start.
    #[tactic(auto, using(board::proofs::Formed::formed_pegs, crate::proofs::Held::holds_none))]
    pub fn of(position: &[u8]) -> Pegs
        requires { (length position.now ≤ limit) × WellFormed position.now }
        ensures { Holds result position.now }
    {
        let mut pegs = Pegs {
            top: [position.len() + 1; 3],
            beneath: *UNUSED,
        };
        for d in (0..position.len()).rev() {
            let peg = position[d] as usize;
            pegs.beneath[d] = pegs.top[peg];
            pegs.top[peg] = d + 1;
        }
        pegs
    }

    // Takes the topmost disc of a peg to another.
    pub fn carry(&mut self, from: usize, to: usize)
        requires { (from < 3) × (to < 3) × Carries self.old.top from }
        ensures { self.new ≡ shifted self.old from to }
    {
        let disc = self.top[from];
        let under = self.beneath[disc - 1];
        self.beneath[disc - 1] = self.top[to];
        self.top[from] = under;
        self.top[to] = disc;
    }
}
