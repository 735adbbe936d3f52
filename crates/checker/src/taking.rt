// Discs taken off their pegs one by one.
ghost use Rattle.std.specs.Prelude.{◌≡◌, ◌≤◌, length};
ghost use Rattle.board.specs.Position.{WellFormed};
ghost use Rattle.board.specs.Task.{limit};
ghost use Rattle.checker.specs.Inner.Stacks.{taken_off};

use run::pegs::Pegs;

// Whether the pegs are those of a position: its discs are taken off one by one, the smallest first, each from its peg.
// Stays: the clause and no `Task`, which would be no plainer: the position is a part of a task's goal.
#[tactic(auto, using(board::proofs::Formed::formed_pegs, crate::proofs::Taken::taken_past, crate::proofs::Taken::taken_fails, crate::proofs::Taken::taken_end))]
pub fn take_off(pegs: &Pegs, position: &[u8]) -> bool
    requires { (length position.now ≤ limit) × WellFormed position.now }
    ensures { result ≡ taken_off pegs.now.top pegs.now.beneath 0 position.now }
{
    let mut top = pegs.top;
    for (d, peg) in position.iter().enumerate() {
        let peg = *peg as usize;
        if top[peg] != d + 1 {
            return false;
        }
        top[peg] = pegs.beneath[d];
    }
    true
}
