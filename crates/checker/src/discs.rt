// Discs on their pegs, as a walk keeps them. Discs 1 and 2 are known by the letters of their pegs, and the larger discs by their topmost
// ones: a move of disc 1 or 2 changes one number, any other move three.
ghost use Rattle.std.specs.Prelude.{List, ◌≡◌, ℕ, ◌+◌, ◌<◌, ◌≤◌, cond, min, length, drop};
ghost use Rattle.board.specs.Fewest.{same};
ghost use Rattle.board.specs.Task.{limit};
ghost use Rattle.checker.specs.Inner.Walk.{letter_of, Kept, may_move, made};
ghost use Rattle.run.specs.Inner.Pegs.{disc_on};

use crate::letters::{A, is_letter};
use crate::taking::take_off;
use plan::Task;
use run::pegs::Pegs;

// The letters of the pegs of discs 1 and 2, the second one NONE where there is no disc 2, and the pegs of the larger discs.
#[derive(Clone, Copy)]
pub struct Discs {
    pub small: usize,
    pub second: usize,
    pub larger: Pegs,
}

// No letter: more than any byte is.
// Stays: tried, with an `Option` the walk was a tenth slower, and no longer ahead of `hinz_check`, the bar (docs/CHANGES.md, 14).
const NONE: usize = 256;

// How many discs are known by their letters: the two smallest, or as many as there are.
fn apart(n: usize) -> usize
    ensures { result ≡ min n 2 }
{
    n.min(2)
}

// The letter of disc 2's peg, or NONE where there is no such disc.
#[tactic(auto, using(crate::proofs::Pairs::letter_none, crate::proofs::Pairs::letter_second))]
fn second_letter(position: &[u8]) -> usize
    ensures { result ≡ letter_of (drop 1 position.now) }
{
    match position {
        [_, second, ..] => A + *second as usize,
        _ => NONE,
    }
}

impl Discs {
    // The discs at the start of a task that has some.
    #[tactic(auto, using(crate::proofs::Taken::larger_part, crate::proofs::Taken::larger_fits))]
    pub fn of(task: &Task) -> Discs
        requires { 0 < length task.now.start.now }
        ensures { Kept result task.now.start.now }
    {
        let start = task.start;
        Discs {
            small: A + start[0] as usize,
            second: second_letter(start),
            larger: Pegs::of(&start[apart(start.len())..]),
        }
    }

    // Makes the move of two bytes if it is legal, and says whether it was. None goes to the peg of disc 1, which may go to any other; then
    // none to that of disc 2, which may go to any other; a larger disc goes onto a larger one.
    #[tactic(auto, using(crate::proofs::Pairs::letter_above, crate::proofs::Pairs::letter_place), unfolding(crate::specs::Inner::Walk::may_move, crate::specs::Inner::Walk::made))]
    pub fn make(&mut self, from: usize, to: usize) -> bool
        requires { (i : ℕ) → i < 3 → (0 < disc_on self.old.larger.top i) × (disc_on self.old.larger.top i ≤ limit + 1) }
        ensures value { result ≡ may_move self.old.small self.old.second self.old.larger.top from to }
        ensures after { self.new ≡ cond result (made self.old from to) self.old }
    {
        if !is_letter(to) || to == self.small {
            return false;
        }
        if from == self.small {
            self.small = to;
            return true;
        }
        if to == self.second {
            return false;
        }
        if from == self.second {
            self.second = to;
            return true;
        }
        if !is_letter(from) || self.larger.top[to - A] <= self.larger.top[from - A] {
            return false;
        }
        self.larger.carry(from - A, to - A);
        true
    }

    // Whether they stand as in the goal of a task that has some.
    #[tactic(auto, using(std::proofs::lemmas::Bool::Decides::nat_tests, crate::proofs::Taken::stands))]
    pub fn stand(&self, task: &Task) -> bool
        requires { 0 < length task.now.goal.now }
        ensures { (p : List ℕ) → Kept self.now p → length p ≡ length task.now.goal.now → result ≡ same p task.now.goal.now }
    {
        let goal = task.goal;
        self.small == A + goal[0] as usize
            && self.second == second_letter(goal)
            && take_off(&self.larger, &goal[apart(goal.len())..])
    }
}
