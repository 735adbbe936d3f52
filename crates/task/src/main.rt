// The task program: reads a task on standard input and writes its report, or its refusal, on standard output.
#![tactic(auto)]

ghost use Rattle.std.specs.Prelude.{◌≤◌, length};

use std::io;
use std::io::Read;

// The most bytes that are read: a task's, and one too many.
const MOST: usize = text::MOST + 1;

// Reads until the buffer is full, the input ends or a read fails, and answers how many bytes it put at the start of the buffer.
// Stays: a loop that counts, since std's own loops read on after an interrupted read, which ends the input here, as any other error does.
fn read_full(input: &mut impl Read, buffer: &mut [u8]) -> usize
    ensures { result ≤ length buffer.new }
{
    let mut done = 0;
    while done < buffer.len() {
        match input.read(&mut buffer[done..]) {
            Ok(0) | Err(_) => break,
            Ok(n) => done += n,
        }
    }
    done
}

fn main(rt: HostRuntime) -> io::Result<()> {
    let mut input = [0; MOST];
    let read = read_full(&mut rt.stdin(), &mut input);
    let mut page = [0; text::PAGE];
    let end = text::answer(&input[..read], &mut page);
    rt.write_all(&page[..end])
}
