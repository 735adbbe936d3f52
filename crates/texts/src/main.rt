// Prints what the task program answers to tasks without faults and to texts at the edges of its grammar.
#![tactic(auto)]

mod answers;
mod lines;

use answers::answer_to;
use std::io;

// Tasks without faults, each after its name.
const BOARDS: [(&str, &str); 8] = [
    ("still", "[]\n[]\n"),
    ("one disc", "[0]\n[2]\n"),
    ("two discs", "[0, 0]\n[2, 2]\n"),
    ("a tie", "[1, 0]\n[0, 1]\n"),
    ("a detour", "[1, 1, 0]\n[0, 0, 1]\n"),
    ("001, section 4", "[0, 1, 2, 0, 0, 1]\n[1, 2, 0, 1, 1, 0]\n"),
    (
        "1,000 moves",
        "[2, 2, 2, 1, 0, 2, 0, 1, 2, 0]\n[2, 2, 2, 2, 2, 2, 2, 2, 2, 2]\n",
    ),
    (
        "1,001 moves",
        "[0, 2, 2, 1, 0, 2, 0, 1, 2, 0]\n[2, 2, 2, 2, 2, 2, 2, 2, 2, 2]\n",
    ),
];

// One fault at a time, and then the first of several.
const FAULTS: [(&str, &str); 6] = [
    ("unequal counts", "[0]\n[0, 1]\n"),
    ("unequal counts of even sum", "[0]\n[0, 1, 2]\n"),
    ("a digit above 2", "[0, 3]\n[0, 1]\n"),
    ("a 9", "[0, 1]\n[0, 9]\n"),
    ("a digit above 2, unequal counts", "[3]\n[]\n"),
    ("a tab, unequal counts", "[\t3]\n[]\n"),
];

// Other text.
const OTHER: [(&str, &str); 16] = [
    ("nothing", ""),
    ("one line", "[0]\n"),
    ("three lines", "[0]\n[1]\n[2]\n"),
    ("no last newline", "[0]\n[1]"),
    ("carriage returns", "[0]\r\n[1]\r\n"),
    ("a tab", "[0,\t1]\n[1, 0]\n"),
    ("a space after the bracket", "[ 0]\n[1]\n"),
    ("a space before the bracket", "[0 ]\n[1]\n"),
    ("no space after a comma", "[0,1]\n[1, 0]\n"),
    ("two spaces after a comma", "[0,  1]\n[1, 0]\n"),
    ("two digits together", "[00]\n[11]\n"),
    ("a comma at the end", "[0, ]\n[1, ]\n"),
    ("no brackets", "0\n1\n"),
    ("a letter", "[A]\n[B]\n"),
    ("an empty line between", "[0]\n\n[1]\n"),
    ("a zero byte", "[0]\n[1]\n\x00"),
];

fn main(rt: HostRuntime) -> io::Result<()> {
    for (name, input) in BOARDS.iter().chain(&FAULTS).chain(&OTHER) {
        answer_to(&rt, name, input.as_bytes())?;
    }
    lines::all(&rt)
}
