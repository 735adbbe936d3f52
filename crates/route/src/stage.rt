// What a route does at a stage: its next move, and where the discs are.
ghost use Rattle.std.specs.Prelude.{◌≡◌, ℕ, ◌<◌, ◌≤◌, length, get_or, ltb, cond, replicate};
ghost use Rattle.board.specs.Position.{peg};
ghost use Rattle.board.specs.Task.{limit};
ghost use Rattle.route.specs.Inner.Stage.{CourseFits, StageFits, stage_position, stage_target, stage_move, stage_peg};

use crate::answer::DiscMove;
use crate::course::{Course, Stage};
use crate::gathering::Gathering;
use board::LIMIT;
use plan::Task;

impl Course {
    // The gathering that a stage is on, forwards or backwards: that of the start, of the tower on the goal peg, or of the goal.
    fn gathering<'a>(self, task: &'a Task, tower: &'a [u8], stage: Stage) -> Gathering<'a>
        requires course_fits { CourseFits self (length task.now.start.now) }
        requires tower_value { tower.now ≡ replicate limit self.to }
        ensures position_value { result.position.now ≡ stage_position task.now.start.now task.now.goal.now self stage }
        ensures discs_value { result.discs ≡ self.disc }
        ensures target_value { result.target ≡ stage_target self stage }
    {
        let (position, target) = match stage {
            Stage::Gathering(_) => (task.start, self.first_peg()),
            Stage::Shifting(_) => (tower, self.from),
            Stage::Spreading(_) => (task.goal, self.last_peg()),
        };
        Gathering {
            position,
            discs: self.disc,
            target,
        }
    }
}

// The next move at a stage.
#[tactic(auto, using(std::proofs::lemmas::Bool::Decides::nat_tests), unfolding(crate::specs::Inner::Stage::stage_move))]
pub fn stage_move(task: &Task, course: Course, stage: Stage) -> DiscMove
    requires course_fits { CourseFits course (length task.now.start.now) }
    requires stage_fits { StageFits stage }
    ensures { result ≡ stage_move (peg task.now.start.now) (peg task.now.goal.now) course stage }
{
    let tower = [course.to; LIMIT];
    let gathering = course.gathering(task, &tower, stage);
    match stage {
        Stage::Gathering(0) => DiscMove {
            disc: course.disc + 1,
            from: course.from,
            to: course.first_stop(),
        },
        Stage::Shifting(0) => DiscMove {
            disc: course.disc + 1,
            from: course.free,
            to: course.to,
        },
        // Stays: two arms alike, since the proof of one with `|` did not close.
        Stage::Gathering(left) => gathering.move_along(left),
        Stage::Shifting(left) => gathering.move_along(left),
        Stage::Spreading(done) => gathering.move_along(done + 1).turned(),
    }
}

// An array whose bytes from k on are those of a position.
pub fn with_larger(pegs: [u8; LIMIT], position: &[u8], k: usize) -> [u8; LIMIT]
    requires { length position.now ≤ limit }
    ensures { (d : ℕ) → d < length position.now → get_or result d 0 ≡ cond (ltb d k) (get_or pegs d 0) (peg position.now d) }
{
    let mut all = pegs;
    let k = k.min(position.len());
    all[k..position.len()].copy_from_slice(&position[k..]);
    all
}

// The peg of each disc at a stage.
pub fn stage_pegs(task: &Task, course: Course, stage: Stage) -> [u8; LIMIT]
    requires { CourseFits course (length task.now.start.now) }
    ensures { (d : ℕ) → d < length task.now.start.now → get_or result d 0 ≡ stage_peg (peg task.now.start.now) (peg task.now.goal.now) course stage d }
{
    let k = course.disc;
    let start = task.start;
    let goal = task.goal;
    let tower = [course.to; LIMIT];
    let gathering = course.gathering(task, &tower, stage);
    match stage {
        Stage::Gathering(left) => with_larger(gathering.pegs_along(left), start, k),
        Stage::Shifting(left) => {
            let mut pegs = with_larger(gathering.pegs_along(left), start, k);
            pegs[k] = course.free;
            pegs
        }
        Stage::Spreading(done) => with_larger(gathering.pegs_along(done), goal, k),
    }
}
