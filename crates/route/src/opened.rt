// A task with its plan, and the number of one of its shortest routes.
ghost use Rattle.std.specs.Prelude.{◌≡◌, ◌<◌};
ghost use Rattle.plan.specs.Plan.{plan_of, routes};

use crate::course::Course;
use plan::{Plan, Task};

// A task opened at a route: Move, Place, Run, Parts, Wear and Locate work on it.
#[derive(Clone, Copy)]
pub struct Opened<'a> {
    pub task: Task<'a>,
    pub plan: Plan,
    pub route: u64,
    pub ghost planned: { plan ≡ plan_of task.start.now task.goal.now },
    pub ghost known: { route < routes plan },
}

impl<'a> Opened<'a> {
    ghost use Rattle.route.specs.Inner.Stage.{course_of};

    // The course of its route, where a disc moves.
    pub fn course(&self) -> Course
        requires { 0 < self.now.plan.largest }
        ensures { result ≡ course_of self.now.task.start.now self.now.task.goal.now self.now.route }
    {
        Course::of(self.task.start, self.task.goal, self.plan, self.route)
    }
}
