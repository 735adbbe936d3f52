// The checker: both routes of a tie, longer lists, each refusal at its edge, and lists with several faults.
use crate::boards::{DETOUR, SIX, TIE, tower_task};
use crate::lines;
use std::io;

// Legal lists on the tie that are no shortest route.
const LONGER: &[(&str, &[u8])] = &[
    ("tie, one move late: BA AC AB CA", b"BAACABCA"),
    ("tie, past the goal and back", b"BCABCAABBA"),
    ("tie, the goal is left at the end", b"BCABCAAB"),
    ("tie, one move too few", b"BCAB"),
    ("tie, three moves elsewhere", b"BCABCB"),
    ("tie, no moves", b""),
];

// 14: odd length or a byte other than A, B, C.
const BYTES: &[(&str, &[u8])] = &[
    ("tie, the last letter missing", b"BCABC"),
    ("tie, one letter too many", b"BCABCAA"),
    ("tie, one letter alone", b"B"),
    ("tie, lower case", b"bcabca"),
    ("tie, the last letter lower case", b"BCABCa"),
    ("tie, the byte before A, first", b"@CABCA"),
    ("tie, the byte after C, last", b"BCABCD"),
    ("tie, byte 0", b"BC\x00BCA"),
    ("tie, byte 255", b"BCAB\xffA"),
    ("tie, spaces", b"BC AB CA"),
];

// 15: some move is not legal at its turn.
const ILLEGAL: &[(&str, &[u8])] = &[
    ("tie, from equals to, first", b"BBABCA"),
    ("tie, from an empty peg, first", b"CAABCA"),
    ("tie, onto a smaller disc, first", b"ABABCA"),
    ("tie, from equals to, last", b"BCABAA"),
    ("tie, from an empty peg, last", b"BCABAC"),
    ("tie, onto a smaller disc, last", b"BCABBC"),
    ("tie, an illegal move after the goal", b"BCABCABA"),
    ("tie, and a legal one after it", b"BCABCABAAB"),
];

// 14 before 15 before 16.
const SEVERAL: &[(&str, &[u8])] = &[
    ("tie, illegal first, odd length", b"BBABC"),
    ("tie, illegal first, lower case last", b"BBABCa"),
    ("tie, past the goal, lower case last", b"BCABCAABBa"),
    ("tie, illegal last, goal not reached", b"BABB"),
];

// The two ways across on the detour.
const ACROSS: &[(&str, &[u8])] = &[
    ("[1, 1, 0] to [0, 0, 1], the detour", b"ACBCBACACB"),
    ("[1, 1, 0] to [0, 0, 1], directly", b"BABCACABCACBAB"),
];

// The lines of several lists on one task.
fn checks(rt: &impl Print, task: &[u8], lists: &[(&str, &[u8])]) -> io::Result<()> {
    for (name, letters) in lists {
        lines::check(rt, name, task, letters)?;
    }
    Ok(())
}

fn tie(rt: &impl Print) -> io::Result<()> {
    lines::check(rt, "tie, BC AB CA", TIE, b"BCABCA")?;
    lines::check(rt, "tie, AC BA CB", TIE, b"ACBACB")?;
    lines::check_run(rt, "tie, what Run writes of route 0", TIE, 0)?;
    lines::check_run(rt, "tie, what Run writes of route 1", TIE, 1)?;
    checks(rt, TIE, LONGER)?;
    checks(rt, TIE, BYTES)?;
    checks(rt, TIE, ILLEGAL)?;
    checks(rt, TIE, SEVERAL)
}

// Task faults come first.
fn task_refused(rt: &impl Print) -> io::Result<()> {
    lines::check(rt, "task of odd length, byte 3", b"\x00\x00\x03", b"a")?;
    lines::check(rt, "61 discs, byte 3", &[3; 122], b"a")?;
    lines::check(rt, "byte 3", b"\x00\x03", b"a")
}

// One disc, a detour, and six discs.
fn others(rt: &impl Print) -> io::Result<()> {
    lines::check(rt, "[0] to [2], AC", b"\x00\x02", b"AC")?;
    lines::check(rt, "[0] to [2], AB BC", b"\x00\x02", b"ABBC")?;
    lines::check(rt, "[0] to [2], AC AC", b"\x00\x02", b"ACAC")?;
    checks(rt, DETOUR, ACROSS)?;
    lines::check_run(rt, "six discs, what Run writes", SIX, 0)
}

// A still task and no discs, of which the empty list is the route, and 60 discs.
fn still(rt: &impl Print, tower: &[u8]) -> io::Result<()> {
    let cases: [(&str, &[u8], &[u8]); 9] = [
        ("[1, 1] to [1, 1], no moves", b"\x01\x01\x01\x01", b""),
        ("[1, 1] to [1, 1], BA AB", b"\x01\x01\x01\x01", b"BAAB"),
        ("no discs, no moves", b"", b""),
        ("no discs, AB", b"", b"AB"),
        ("no discs, AD", b"", b"AD"),
        ("no discs, one letter", b"", b"A"),
        ("60 discs, still, no moves", &[1; 120], b""),
        ("60 discs, all 0 to all 2, AB AC", tower, b"ABAC"),
        ("60 discs, all 0 to all 2, AB AB", tower, b"ABAB"),
    ];
    for (name, task, letters) in cases {
        lines::check(rt, name, task, letters)?;
    }
    Ok(())
}

pub fn all(rt: &impl Print) -> io::Result<()> {
    tie(rt)?;
    task_refused(rt)?;
    others(rt)?;
    still(rt, &tower_task())
}
