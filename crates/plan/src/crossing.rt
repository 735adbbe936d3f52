// The plan of a task: the largest disc that moves, and the lengths of its two ways across.
ghost use Rattle.std.specs.Prelude.{◌≡◌, ◌<◌, length};
ghost use Rattle.board.specs.Position.{peg};
ghost use Rattle.plan.specs.Inner.Sound.{Ends};
ghost use Rattle.plan.specs.Plan.{largest, lengths_of, plan_of};

use crate::answer::{Lengths, Plan, Way};
use crate::task::Task;
use crate::together::Gathers;

// The largest disc whose pegs differ, or 0.
// Stays: 0 and no `Option`, as the clause of this public function has it (`largest` of specs/Plan).
#[tactic(auto, using(crate::proofs::Largest::largest_here, crate::proofs::Largest::largest_less))]
pub fn largest_moving(start: &[u8], goal: &[u8]) -> usize
    requires { length start.now ≡ length goal.now }
    ensures { result ≡ largest (peg start.now) (peg goal.now) (length start.now) }
{
    for k in (0..start.len()).rev() {
        if start[k] != goal[k] {
            return k + 1;
        }
    }
    0
}

impl Task<'_> {
    // The direct and the detour length of disc k + 1.
    #[tactic(auto, using(crate::proofs::OnePass::one_pass), unfolding(crate::specs::Plan::direct, crate::specs::Plan::detour))]
    fn lengths(&self, k: usize) -> Lengths
        requires { k < length self.now.start.now }
        ensures { result ≡ lengths_of (peg self.now.start.now) (peg self.now.goal.now) k }
    {
        let start = self.start;
        let goal = self.goal;
        let from = start[k];
        let to = goal[k];
        let aside = board::third(from, to);
        let mut direct = Gathers {
            start: aside,
            goal: aside,
            sum: 0,
        };
        let mut detour = Gathers {
            start: to,
            goal: from,
            sum: 0,
        };
        for d in (0..k).rev() {
            direct = direct.passed(start[d], goal[d]);
            detour = detour.passed(start[d], goal[d]);
        }
        Lengths {
            direct: direct.sum + 1,
            detour: detour.sum + (1 << k) + 1,
        }
    }

    // The plan.
    #[tactic(auto, using(crate::proofs::Largest::largest_le, crate::proofs::Largest::plan_moving), unfolding(crate::specs::Plan::plan_of, crate::specs::Plan::plan_by))]
    pub fn plan(&self) -> Plan
        ensures { result ≡ plan_of self.now.start.now self.now.goal.now }
    {
        let m = largest_moving(self.start, self.goal);
        if m == 0 {
            return Plan {
                discs: self.discs(),
                largest: 0,
                from: 0,
                to: 0,
                way: Way::Still,
            };
        }
        let k = m - 1;
        Plan {
            discs: self.discs(),
            largest: m,
            from: self.start[k],
            to: self.goal[k],
            way: Way::of(self.lengths(k)),
        }
    }
}

// The plan between two positions of one size.
// Stays: two slices under a clause and no `Task`: a public function, which what may not change keeps.
pub fn plan_between(start: &[u8], goal: &[u8]) -> Plan
    requires { Ends start.now goal.now }
    ensures { result ≡ plan_of start.now goal.now }
{
    let task = Task { start, goal };
    task.plan()
}
