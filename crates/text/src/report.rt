// The report of a task, line by line.
ghost use Rattle.std.specs.Prelude.{◌++◌, ◌≡◌, ◌+◌, ◌*◌, ◌/◌, ◌<◌, ◌≤◌, length};
ghost use Rattle.text.specs.Inner.Page.{spaced};
ghost use Rattle.text.specs.Report.{length_lines, head_text, route_text, route_line, report_text};
ghost use Rattle.board.specs.Reply.{pass};
ghost use Rattle.board.specs.Task.{start, goal, task_check};
ghost use Rattle.plan.specs.Plan.{plan_of};
ghost use Rattle.route.specs.Answer.{length_of, count_of, task_route};

use crate::put::{Page, put, put_decimal, put_line};
use plan::{Plan, Way};

// The most moves of a route that is printed.
const MOST_MOVES: u64 = 1000;

// Puts the lines of the two plan lengths; still has none.
fn put_lengths(page: &mut Page, way: Way)
    requires { length page.old.items + 56 ≤ 8192 }
    ensures items { page.new.items ≡ page.old.items ++ length_lines way }
    ensures upper_bound { length page.new.items ≤ length page.old.items + 56 }
{
    match way {
        Way::Still => put(page, b"direct -\ndetour -\n"),
        Way::Direct(lengths) | Way::Detour(lengths) | Way::Tie(lengths) => {
            put_line(page, b"direct ", lengths.direct);
            put_line(page, b"detour ", lengths.detour);
        },
    }
}

// Puts the lines above the routes.
#[tactic(auto, unfolding(crate::specs::Report::head_text))]
fn put_head(page: &mut Page, plan: Plan)
    requires { length page.old.items + 141 ≤ 8192 }
    ensures items { page.new.items ≡ page.old.items ++ head_text plan }
    ensures upper_bound { length page.new.items ≤ length page.old.items + 141 }
{
    put_line(page, b"discs ", plan.discs as u64);
    put_lengths(page, plan.way);
    put_line(page, b"shortest ", plan.shortest());
    put_line(page, b"routes ", plan.routes());
}

// Puts moves, each a space and two of the letters.
#[tactic(auto, using(crate::proofs::Page::spaced_pair, crate::proofs::Page::spaced_end))]
fn put_moves(page: &mut Page, letters: &[u8])
    requires { length page.old.items + 3 * (length letters.now / 2) ≤ 8192 }
    ensures items { page.new.items ≡ page.old.items ++ spaced letters.now }
    ensures len { length page.new.items ≡ length page.old.items + 3 * (length letters.now / 2) }
{
    let (pairs, _) = letters.as_chunks::<2>();
    for pair in pairs {
        page.push(b' ');
        put(page, pair);
    }
}

// Puts the moves of a route, or the word long.
// Stays: the bytes, a route and its moves under a clause, here, in the line of a route and in the report, and no `Opened`, which would be no
// plainer: Run takes the bytes, and a public `run_from` would be a second way into Run.
#[tactic(auto, using(crate::proofs::Runs::long_route, crate::proofs::Runs::run_whole, crate::proofs::Runs::run_text))]
fn put_route(page: &mut Page, task: &[u8], route: u64, moves: u64)
    requires room { length page.old.items + 3000 ≤ 8192 }
    requires task_value { (task_check task.now ≡ pass) × (route < count_of task.now) × (moves ≡ length_of task.now) }
    ensures items { page.new.items ≡ page.old.items ++ route_text (task_route task.now route) }
    ensures upper_bound { length page.new.items ≤ length page.old.items + 3000 }
{
    if MOST_MOVES < moves {
        put(page, b" long");
        return;
    }
    let mut letters = [0; 2000];
    let count = run::run(task, route, 0, &mut letters).unwrap();
    put_moves(page, &letters[..2 * count]);
}

// Puts the line of a route.
#[tactic(auto, using(crate::proofs::Numbers::decimal_fits))]
fn put_route_line(page: &mut Page, task: &[u8], route: u64, moves: u64)
    requires room { length page.old.items + 3021 ≤ 8192 }
    requires task_value { (task_check task.now ≡ pass) × (route < count_of task.now) × (moves ≡ length_of task.now) }
    ensures items { page.new.items ≡ page.old.items ++ route_line route (task_route task.now route) }
    ensures upper_bound { length page.new.items ≤ length page.old.items + 3021 }
{
    put_decimal(page, route);
    put_route(page, task, route, moves);
    put(page, b"\n");
}

// Puts the report of a task at the start of a page.
#[tactic(auto, using(crate::proofs::Runs::lines_none, crate::proofs::Runs::lines_more, crate::proofs::Runs::few_routes), unfolding(crate::specs::Report::report_text))]
pub fn put_report(page: &mut Page, task: &[u8], plan: Plan)
    requires { (task_check task.now ≡ pass) × (plan ≡ plan_of (start task.now) (goal task.now)) }
    ensures items { page.new.items ≡ report_text (start task.now) (goal task.now) }
    ensures upper_bound { length page.new.items ≤ 8192 }
{
    page.clear();
    put_head(page, plan);
    for route in 0..plan.routes() {
        put_route_line(page, task, route, plan.shortest());
    }
}
