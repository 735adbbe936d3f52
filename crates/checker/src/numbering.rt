// Which of our routes a shortest route is.
ghost use Rattle.std.specs.Prelude.{◌≡◌};
ghost use Rattle.board.specs.Fewest.{same};
ghost use Rattle.checker.specs.Inner.Ours.{OneOfOurs};
ghost use Rattle.route.specs.Answer.{count_of, task_route, letters as letters_of};

// Whether the letters of one of our routes are those of route 0. The two routes of a tie differ in their first move.
#[tactic(auto, using(crate::proofs::First::only_first, crate::proofs::First::told))]
pub fn is_first(task: &[u8], routes: u64, letters: &[u8]) -> bool
    requires routes_value { routes ≡ count_of task.now }
    requires one_of_ours { OneOfOurs task.now letters.now }
    ensures { result ≡ same letters.now (letters_of (task_route task.now 0)) }
{
    if routes == 1 {
        return true;
    }
    let (first, _) = route::move_at(task, 0, 0).unwrap();
    letters.starts_with(&[b'A' + first.from, b'A' + first.to])
}
