// The position at an index of a route, without walking it: for Place, Locate and Run.
ghost use Rattle.std.specs.Prelude.{◌≡◌, ◌<◌, ◌≤◌, length, take};
ghost use Rattle.plan.specs.Inner.Sound.{Ends};
ghost use Rattle.plan.specs.Plan.{plan_of, routes, shortest};
ghost use Rattle.route.specs.Route.{route_of, after};

use crate::opened::Opened;
use crate::stage;
use board::LIMIT;
use plan::{Plan, Task};

impl Opened<'_> {
    // The pegs after so many moves of its route, at most its length.
    #[tactic(auto, using(crate::proofs::Calls::Routes::opened_course, crate::proofs::Calls::Routes::opened_still, board::proofs::Arrays::padded_take))]
    pub fn pegs(&self, index: u64) -> [u8; LIMIT]
        requires { index ≤ shortest self.now.plan }
        ensures { take (length self.now.task.start.now) result ≡ after self.now.task.start.now (take index (route_of self.now.task.start.now self.now.task.goal.now self.now.route)) }
    {
        if self.plan.largest == 0 {
            return board::padded_array(self.task.start);
        }
        let course = self.course();
        stage::stage_pegs(&self.task, course, course.stage(index))
    }
}

// The same, of two positions, their plan and a route number.
// Stays: slices and numbers under clauses and no `Opened`: a public function, which what may not change keeps.
pub fn route_pegs(start: &[u8], goal: &[u8], plan: Plan, route: u64, index: u64) -> [u8; LIMIT]
    requires ends { Ends start.now goal.now }
    requires plan_value { plan ≡ plan_of start.now goal.now }
    requires route_bound { (route < routes plan) × (index ≤ shortest plan) }
    ensures { take (length start.now) result ≡ after start.now (take index (route_of start.now goal.now route)) }
{
    let task = Task { start, goal };
    Opened { task, plan, route }.pegs(index)
}
