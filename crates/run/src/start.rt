// The stepper at an index of a route: the position there, the leg, and disc 1's target.
ghost use Rattle.std.specs.Prelude.{◌≡◌, ◌<◌, ◌≤◌, length, take, drop};
ghost use Rattle.board.specs.Position.{peg, WellFormed};
ghost use Rattle.board.specs.Task.{limit};
ghost use Rattle.plan.specs.Plan.{shortest};
ghost use Rattle.route.specs.Inner.Aim.{aim};
ghost use Rattle.route.specs.Route.{route_of, after};
ghost use Rattle.run.specs.Inner.Ready.{Ready};
ghost use Rattle.run.specs.Inner.Start.{start_leg, Spreads, Started};

use crate::pegs::Pegs;
use crate::stepper::{Leg, Stepper, Turn};
use route::Opened;
use route::course::{Course, Stage};

// Disc 1's target when discs 1 to k + 1 are gathered on a target.
#[tactic(auto, using(board::proofs::Formed::formed_pegs, board::proofs::Pegs::third_peg), unfolding(route::specs::Inner::Aim::aim))]
fn aim_of(pegs: &[u8], k: usize, target: u8) -> u8
    requires { (k < length pegs.now) × WellFormed pegs.now × (target < 3) }
    ensures { result ≡ aim (peg pegs.now) k target }
{
    let mut goal = target;
    for d in (0..k).rev() {
        goal = board::third(goal, pegs[d + 1]);
    }
    goal
}

// The leg at a stage of a course. In a spreading it is of the largest disc that is not on its goal peg.
#[tactic(auto, using(plan::proofs::Largest::largest_le), unfolding(crate::specs::Inner::Start::start_leg))]
fn start_leg(course: Course, stage: Stage, pegs: &[u8], goal: &[u8]) -> Leg
    requires pegs_len { length pegs.now ≡ length goal.now }
    requires spreads { Spreads stage (peg pegs.now) (peg goal.now) (length pegs.now) }
    ensures { result ≡ start_leg course stage (peg pegs.now) (peg goal.now) (length pegs.now) }
{
    match stage {
        Stage::Gathering(_) => Leg {
            disc: course.disc,
            from: course.from,
            to: course.first_stop(),
            again: course.detour,
        },
        Stage::Shifting(_) => Leg {
            disc: course.disc,
            from: course.free,
            to: course.to,
            again: false,
        },
        Stage::Spreading(_) => {
            let disc = plan::crossing::largest_moving(pegs, goal) - 1;
            Leg {
                disc,
                from: pegs[disc],
                to: goal[disc],
                again: false,
            }
        }
    }
}

// The stepper at a position before a leg.
// Stays: the clause and no `Task`, which would be no plainer: the position is one on a route.
#[tactic(auto, using(board::proofs::Pegs::third_peg))]
fn stepper_at(pegs: &[u8], leg: Leg) -> Stepper
    requires disc_in_bounds { (leg.disc < length pegs.now) × (leg.from < 3) × (leg.to < 3) }
    requires pegs_len_bound { (length pegs.now ≤ limit) × WellFormed pegs.now }
    ensures { Started result pegs.now leg }
{
    let aside = board::third(leg.from, leg.to);
    Stepper {
        pegs: Pegs::of(pegs),
        turn: Turn {
            small: pegs[0],
            aim: aim_of(pegs, leg.disc.saturating_sub(1), aside),
            left: plan::stack::gather_discs(pegs, leg.disc, aside),
        },
        leg,
    }
}

// The stepper at an index of a route below its length.
#[tactic(auto, using(route::proofs::Calls::Routes::opened_course, crate::proofs::Starting::started))]
pub fn start_at(opened: &Opened, index: u64) -> Stepper
    requires { index < shortest opened.now.plan }
    ensures { Ready result (after opened.now.task.start.now (take index (route_of opened.now.task.start.now opened.now.task.goal.now opened.now.route))) (peg opened.now.task.goal.now) (drop index (route_of opened.now.task.start.now opened.now.task.goal.now opened.now.route)) }
{
    let n = opened.task.discs();
    let course = opened.course();
    let pegs = opened.pegs(index);
    let leg = start_leg(course, course.stage(index), &pegs[..n], opened.task.goal);
    stepper_at(&pegs[..n], leg)
}
