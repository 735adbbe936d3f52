// The moves of a route, written one after another.
ghost use Rattle.std.specs.Prelude.{[], ◌∷◌, ◌++◌, ◌≡◌, ℕ, ◌+◌, ◌*◌, ◌<◌, ◌≤◌, length, drop};
ghost use Rattle.std.proofs.lemmas.List.Edits.{sets};
ghost use Rattle.board.specs.Position.{peg};
ghost use Rattle.route.specs.Answer.{letter};
ghost use Rattle.run.specs.Inner.Gatherer.{gatherer, gathers_from, gather_letters, Gathers};
ghost use Rattle.run.specs.Inner.Stepper.{Safe};
ghost use Rattle.run.specs.Inner.Written.{steps_from, step_letters};

use crate::pegs::Pegs;
use crate::stepper::{Step, Stepper, Turn, next_leg};
use route::count::lesser;

// Writes a move at the front of a buffer, as two letters, from then to.
fn write_step(step: Step, out: &mut [u8])
    requires room { 2 ≤ length out.old }
    requires pegs { (step.from < 3) × (step.to < 3) }
    ensures { out.new ≡ sets out.old 0 (letter step.from ∷ letter step.to ∷ []) }
{
    out[0] = b'A' + step.from;
    out[1] = b'A' + step.to;
}

// Writes so many moves of a gathering at the front of a buffer. No leg comes between: all that a move needs is at hand.
// Stays: a count, and no part of the buffer to be filled: tried, with one a Run of one move of 60 discs took 714 to 783 ns, and the bar is
// the 621 to 712 ns that it takes with a count.
// Stays: the place of a move and no pairs: `as_chunks_mut` promises nothing of what the slice ends as.
// Stays: the pegs and the turn are lent apart: tried, as fields of one struct they stayed in memory, which was a fifth slower, and so behind
// `hinz_run_stacks`, the bar (docs/DECISIONS.md).
#[tactic(auto, unfolding(crate::specs::Inner::Gatherer::gathers_from, crate::specs::Inner::Gatherer::gather_letters))]
fn write_gathering(turn: &mut Turn, pegs: &mut Pegs, count: usize, out: &mut [u8])
    requires count_in_bounds { 2 * count ≤ length out.old }
    requires by_index { (i : ℕ) → i < count → Gathers (gathers_from (gatherer pegs.old turn.old) i) }
    ensures gatherer_after { gatherer pegs.new turn.new ≡ gathers_from (gatherer pegs.old turn.old) count }
    ensures out_after { out.new ≡ sets out.old 0 (gather_letters (gatherer pegs.old turn.old) count) }
{
    for i in 0..count {
        write_step(turn.gather_turn(pegs), &mut out[2 * i..]);
    }
}

// Writes so many moves.
#[tactic(auto, using(crate::proofs::Letters::begin, crate::proofs::Steps::legs), unfolding(crate::specs::Inner::Written::steps_from))]
pub fn write_moves(stepper: Stepper, goal: &[u8], count: usize, out: &mut [u8])
    requires count_in_bounds { 2 * count ≤ length out.old }
    requires by_index { (i : ℕ) → i < count → Safe (steps_from stepper (peg goal.now) i) goal.now }
    ensures { out.new ≡ step_letters stepper (peg goal.now) count ++ drop (2 * count) out.old }
{
    let Stepper {
        mut pegs,
        mut turn,
        mut leg,
    } = stepper;
    let mut i = 0;
    // Stays: a `for` would be no plainer, since a turn of the loop writes one move, or all that are left of a gathering.
    while i < count {
        if turn.left == 0 {
            let next = next_leg(leg, goal);
            let step = turn.leg_turn(leg, next, &mut pegs);
            write_step(step, &mut out[2 * i..]);
            leg = next;
            i += 1;
        } else {
            let moves = lesser(turn.left, count - i);
            write_gathering(&mut turn, &mut pegs, moves, &mut out[2 * i..]);
            i += moves;
        }
    }
}
