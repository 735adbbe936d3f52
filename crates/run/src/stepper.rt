// The next move of a route without a fresh plan.
ghost use Rattle.std.specs.Prelude.{◌≡◌, ◌%◌, ◌<◌, ◌≤◌, length, get_or};
ghost use Rattle.board.specs.Position.{peg};
ghost use Rattle.board.specs.Task.{limit};
ghost use Rattle.run.specs.Inner.Pegs.{Carries, shifted};
ghost use Rattle.run.specs.Inner.Stepper.{turned, small_turn, other_from, other_turn, gather_turn, spread_leg, next_leg, tower_aim, leg_turn};

use crate::pegs::Pegs;

// Stays: `Leg`, `Turn` and `Step` without ghost fields for their pegs: definitions of specs/Inner, as `next_leg` and `gather_turn`, build
// such values of any numbers, and a second record beside each would be no plainer.

// A move of disc `disc` + 1, for which the smaller ones are gathered on the third peg; `again`: the same disc crosses once more.
#[derive(Clone, Copy)]
pub struct Leg {
    pub disc: usize,
    pub from: u8,
    pub to: u8,
    pub again: bool,
}

// Disc 1's peg, its next target, and the moves left of gathering the discs below the leg's.
#[derive(Clone, Copy)]
pub struct Turn {
    pub small: u8,
    pub aim: u8,
    pub left: u64,
}

// The pegs, the turn and the leg.
#[derive(Clone, Copy)]
pub struct Stepper {
    pub pegs: Pegs,
    pub turn: Turn,
    pub leg: Leg,
}

// A move.
#[derive(Clone, Copy)]
pub struct Step {
    pub from: u8,
    pub to: u8,
}

impl Turn {
    // Disc 1 goes to its target.
    // Stays: this move and the next are written out, and are no `carry`: with one general move for both, a loop that was tried made 160
    // million moves a second, and missed what `hinz_run_stacks` makes, the bar (docs/DECISIONS.md).
    #[tactic(auto, unfolding(crate::specs::Inner::Stepper::small_turn))]
    fn small_turn(&mut self, pegs: &mut Pegs) -> Step
        requires { (0 < self.old.left) × (self.old.small < 3) × (self.old.aim < 3) × (get_or pegs.old.top self.old.small 0 ≡ 1) }
        ensures value { turned result self.new ≡ small_turn self.old }
        ensures pegs_after { pegs.new ≡ shifted pegs.old result.from result.to }
    {
        let from = self.small;
        let to = self.aim;
        let under = pegs.beneath[0];
        pegs.beneath[0] = pegs.top[to as usize];
        pegs.top[from as usize] = under;
        pegs.top[to as usize] = 1;
        self.small = to;
        self.left -= 1;
        Step { from, to }
    }

    // Between the pegs without disc 1 the smaller topmost disc goes onto the larger. Disc 1 then goes after it where its number is even,
    // else to where it came from.
    #[tactic(auto, unfolding(crate::specs::Inner::Stepper::other_turn, crate::specs::Inner::Stepper::other_from, crate::specs::Inner::Stepper::other_to))]
    fn other_turn(&mut self, pegs: &mut Pegs) -> Step
        requires { (0 < self.old.left) × (self.old.small < 3) × Carries pegs.old.top (other_from pegs.old.top self.old.small) }
        ensures value { turned result self.new ≡ other_turn pegs.old.top self.old }
        ensures pegs_after { pegs.new ≡ shifted pegs.old result.from result.to }
    {
        let second = if self.small == 2 { 0 } else { self.small + 1 };
        let last = if self.small == 0 { 2 } else { self.small - 1 };
        let (a, b) = (pegs.top[second as usize], pegs.top[last as usize]);
        let (from, to, disc, larger) = if a < b {
            (second, last, a, b)
        } else {
            (last, second, b, a)
        };
        pegs.top[from as usize] = pegs.beneath[disc - 1];
        pegs.beneath[disc - 1] = larger;
        pegs.top[to as usize] = disc;
        self.aim = if disc % 2 == 0 { to } else { from };
        self.left -= 1;
        Step { from, to }
    }

    // A move of the gathering: disc 1's where an odd number is left, else the other.
    #[tactic(auto, unfolding(crate::specs::Inner::Stepper::gather_turn, crate::specs::Inner::Stepper::small_turn, crate::specs::Inner::Stepper::other_turn))]
    pub fn gather_turn(&mut self, pegs: &mut Pegs) -> Step
        requires left_nonzero { (0 < self.old.left) × (self.old.small < 3) × ((gather_turn pegs.old.top self.old).to < 3) }
        requires carries { Carries pegs.old.top (gather_turn pegs.old.top self.old).from × (self.old.left % 2 ≡ 1 → get_or pegs.old.top self.old.small 0 ≡ 1) }
        ensures value { turned result self.new ≡ gather_turn pegs.old.top self.old }
        ensures pegs_after { pegs.new ≡ shifted pegs.old result.from result.to }
    {
        if self.left % 2 == 1 {
            self.small_turn(pegs)
        } else {
            self.other_turn(pegs)
        }
    }

    // The leg's own move; the next leg begins with the smaller discs as a tower.
    #[tactic(auto, using(board::proofs::Pegs::third_peg), unfolding(crate::specs::Inner::Stepper::leg_turn))]
    pub fn leg_turn(&mut self, leg: Leg, next: Leg, pegs: &mut Pegs) -> Step
        requires from_bound { (leg.from < 3) × (leg.to < 3) × Carries pegs.old.top leg.from }
        requires from_bound_2 { (next.from < 3) × (next.to < 3) × (next.disc ≤ limit) }
        ensures value { turned result self.new ≡ leg_turn self.old leg next }
        ensures pegs_after { pegs.new ≡ shifted pegs.old result.from result.to }
    {
        pegs.carry(leg.from as usize, leg.to as usize);
        let tower = board::third(leg.from, leg.to);
        let target = board::third(next.from, next.to);
        if leg.disc == 0 {
            self.small = leg.to;
        }
        self.aim = tower_aim(next.disc, tower, target);
        self.left = plan::tower::length(next.disc);
        Step {
            from: leg.from,
            to: leg.to,
        }
    }
}

// The next leg of spreading a tower of k discs: that of its largest disc whose goal is another peg.
#[tactic(auto, using(crate::proofs::Steps::spread_none))]
fn spread_leg(goal: &[u8], k: usize, tower: u8) -> Leg
    requires { k ≤ length goal.now }
    ensures { result ≡ spread_leg (peg goal.now) k tower }
{
    match goal[..k].iter().rposition(|&to| to != tower) {
        Some(disc) => Leg {
            disc,
            from: tower,
            to: goal[disc],
            again: false,
        },
        // Stays: all 0 for none, as `spread_leg` of specs/Inner/Stepper has it: after a route's last move the stepper still has a leg.
        None => Leg {
            disc: 0,
            from: 0,
            to: 0,
            again: false,
        },
    }
}

// The leg after a leg.
#[tactic(auto, unfolding(crate::specs::Inner::Stepper::next_leg))]
pub fn next_leg(leg: Leg, goal: &[u8]) -> Leg
    requires { (leg.from < 3) × (leg.to < 3) × (leg.disc ≤ length goal.now) }
    ensures { result ≡ next_leg leg (peg goal.now) }
{
    let third = board::third(leg.from, leg.to);
    if leg.again {
        Leg {
            disc: leg.disc,
            from: leg.to,
            to: third,
            again: false,
        }
    } else {
        spread_leg(goal, leg.disc, third)
    }
}

// Disc 1's target when a tower of k discs goes from peg w to peg j.
#[tactic(auto, unfolding(crate::specs::Inner::Stepper::tower_aim))]
fn tower_aim(k: usize, w: u8, j: u8) -> u8
    requires { (w < 3) × (j < 3) }
    ensures { result ≡ tower_aim k w j }
{
    if k % 2 == 1 { j } else { board::third(w, j) }
}
