// Lines of many discs: the limit on discs, and that on bytes.
ghost use Rattle.std.specs.Prelude.{◌<◌, ◌≤◌, length};

use crate::answers::answer_to;
use std::io;

// Writes a line of discs, all on the peg of one digit, over some bytes: a bracket, and then three bytes a disc.
fn write_line(line: &mut [u8], digit: u8)
    requires { (4 ≤ length line.old) × (digit < 10) }
{
    line[0] = b'[';
    for disc in line[1..].chunks_exact_mut(3) {
        disc.copy_from_slice(&[b'0' + digit, b',', b' ']);
    }
    let end = line.len() - 2;
    line[end..].copy_from_slice(b"]\n");
}

// The answer to a line of so many discs on one peg, a line of as many on C, and then so many newlines more.
fn show_lines(rt: &impl Print, name: &str, discs: usize, digit: u8, more: usize) -> io::Result<()>
    requires { (0 < discs) × (discs ≤ 85) × (digit < 10) × (more ≤ 1) }
{
    let line = 1 + 3 * discs;
    let mut input = [b'\n'; 513];
    write_line(&mut input[..line], digit);
    write_line(&mut input[line..2 * line], 2);
    answer_to(rt, name, &input[..2 * line + more])
}

// The answer to a line of 169 discs and one of none: 511 bytes.
fn show_unequal(rt: &impl Print) -> io::Result<()> {
    let mut input = [0; 511];
    let (start, goal) = input.split_at_mut(508);
    write_line(start, 0);
    goal.copy_from_slice(b"[]\n");
    answer_to(rt, "169 discs and none", &input)
}

pub fn all(rt: &impl Print) -> io::Result<()> {
    show_lines(rt, "60 discs", 60, 0, 0)?;
    show_lines(rt, "61 discs", 61, 0, 0)?;
    show_lines(rt, "61 discs, a 9", 61, 9, 0)?;
    show_lines(rt, "85 discs in 512 bytes", 85, 0, 0)?;
    show_lines(rt, "513 bytes", 85, 0, 1)?;
    show_unequal(rt)
}
