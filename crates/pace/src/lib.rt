// Calls that C does not get, exported one by one for `make bench` to time. This library is not installed.
// Stays: 0 for a refusal, since a call from C answers one number.
// What C owes: behind each pointer as many bytes as the length after it says, and an `out` that shares no byte with `task`.
#![tactic(auto)]

ghost use Rattle.std.specs.Prelude.{◌≡◌};
ghost use Rattle.parts.specs.Answer.{parts_answer, parts_writes};
ghost use Rattle.session.specs.Answer.{begin_answer, session_or};
ghost use Rattle.session.specs.Sessions.{record_after, calls_from};
ghost use Rattle.route.specs.Answer.{place_answer, place_writes};
ghost use Rattle.checker.specs.Answer.{checker_answer};
ghost use Rattle.pace.specs.Counts.{counted, accepted, move_bytes, index_found};
ghost use Rattle.word.specs.Words.{word as word_of};

use route::Located;

// Parts: how many letters it wrote, or 0 where it refuses.
#[unsafe(no_mangle)]
pub extern "C" fn pace_parts(task: &[u8], route: u64, first: u64, out: &mut [u8]) -> u64
    ensures value { result ≡ counted (parts_answer task.now route first out.old) }
    ensures out_after { out.new ≡ parts_writes task.now route first out.old }
{
    parts::parts(task, route, first, out).map_or(0, |count| count as u64)
}

// Begin on a task, and a list of plays on its record, each a from and a to: how many were accepted.
#[unsafe(no_mangle)]
pub extern "C" fn pace_plays(task: &[u8], plays: &[u8]) -> u64
    ensures { result ≡ (record_after (session_or (begin_answer task.now)) (calls_from plays.now)).counts.made }
{
    let begun = session::begin(task);
    session::replay(begun.session, plays).counts.made
}

// Move: disc, from and to, as the three bytes of a number, or 0 where it refuses.
#[unsafe(no_mangle)]
pub extern "C" fn pace_move(task: &[u8], route: u64, index: u64) -> u64
    ensures { result ≡ counted (move_bytes task.now route index) }
{
    route::move_at(task, route, index).map_or(0, |(m, _)| {
        m.disc as u64 % 256 * 65536 + m.from as u64 * 256 + m.to as u64
    })
}

// Place: 1 where it is accepted, or 0 where it refuses.
#[unsafe(no_mangle)]
pub extern "C" fn pace_place(task: &[u8], route: u64, index: u64, out: &mut [u8]) -> u64
    ensures value { result ≡ accepted (place_answer task.now route index out.old) }
    ensures out_after { out.new ≡ place_writes task.now route index out.old }
{
    route::place(task, route, index, out).is_ok() as u64
}

// Locate: the index of a position that is on route 0, or 0 where it is not or the call refuses.
#[unsafe(no_mangle)]
pub extern "C" fn pace_locate(task: &[u8], position: &[u8]) -> u64
    ensures { result ≡ counted (index_found task.now position.now) }
{
    match route::locate(task, position) {
        Ok(Some(Located { index, route: 0 })) => index,
        _ => 0,
    }
}

// The checker: the number of the route, or refusal k as 2^64 - k.
#[unsafe(no_mangle)]
pub extern "C" fn pace_check(task: &[u8], letters: &[u8]) -> u64
    ensures { result ≡ word_of (checker_answer task.now letters.now) }
{
    word::word_of(checker::check_route(task, letters))
}
