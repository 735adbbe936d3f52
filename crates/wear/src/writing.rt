// The wears of a route, from the largest disc downwards: no move is stepped through.
ghost use Rattle.std.specs.Prelude.{◌++◌, ◌≡◌, ◌-◌, ◌<◌, ◌≤◌, length, drop};
ghost use Rattle.board.specs.Position.{peg};
ghost use Rattle.route.specs.Route.{route_of};
ghost use Rattle.wear.specs.Inner.Below.{wears_below, Writable};
ghost use Rattle.wear.specs.Wear.{wears};

use board::third;
use plan::Task;
use route::Opened;
use route::course::is_detour;

// The moves of larger discs as the next disc meets them: its peg at the first of them, its peg at the last, and how many gaps there are
// between one and the next.
// Stays: beside plan's `Gathers`, whose step is the same of a sum: with it a disc's own moves, which are written, would have to be taken back
// as a difference of two sums, which is no plainer.
#[derive(Clone, Copy)]
struct Gaps {
    first: u8,
    last: u8,
    between: u64,
}

// Writes the wears of the k smallest discs. A disc moves once in each gap, to make way, and once more before the first of the larger
// discs' moves or after the last where it starts or ends elsewhere; each of its moves is one gap more for the next.
#[tactic(auto, using(crate::proofs::Stored::below_steps))]
fn write_smaller(task: &Task, k: usize, above: Gaps, out: &mut [u64])
    requires { Writable task.now.start.now task.now.goal.now k above out.old }
    ensures { out.new ≡ wears_below (peg task.now.start.now) (peg task.now.goal.now) k above.first above.last above.between ++ drop k out.old }
{
    let mut gaps = above;
    for d in (0..k).rev() {
        let x = task.start[d];
        let y = task.goal[d];
        let moves = (x != gaps.first) as u64 + (y != gaps.last) as u64 + gaps.between;
        out[d] = moves;
        gaps = Gaps {
            first: third(gaps.first, x),
            last: third(gaps.last, y),
            between: gaps.between + moves,
        };
    }
}

// Writes the wears of the discs up to the largest that moves, which crosses once on a direct route, and twice on a detour, with one gap.
fn write_moved(opened: &Opened, out: &mut [u64])
    requires { (0 < opened.now.plan.largest) × (opened.now.plan.largest ≤ length out.old) }
    ensures { out.new ≡ wears opened.now.plan.largest (route_of opened.now.task.start.now opened.now.task.goal.now opened.now.route) ++ drop opened.now.plan.largest out.old }
{
    let plan = opened.plan;
    let disc = plan.largest - 1;
    let gaps = if is_detour(plan.way, opened.route) {
        Gaps {
            first: plan.to,
            last: plan.from,
            between: 1,
        }
    } else {
        let free = third(plan.from, plan.to);
        Gaps {
            first: free,
            last: free,
            between: 0,
        }
    };
    out[disc] = gaps.between + 1;
    write_smaller(&opened.task, disc, gaps, out);
}

// Writes the wear of each disc on a route: 0 for those above the largest that moves.
#[tactic(auto, using(crate::proofs::Stored::opened_largest))]
pub fn write_wears(opened: &Opened, out: &mut [u64])
    requires { length opened.now.task.start.now ≤ length out.old }
    ensures { out.new ≡ wears (length opened.now.task.start.now) (route_of opened.now.task.start.now opened.now.task.goal.now opened.now.route) ++ drop (length opened.now.task.start.now) out.old }
{
    let largest = opened.plan.largest;
    out[largest..opened.task.discs()].fill(0);
    if 0 < largest {
        write_moved(opened, out);
    }
}
