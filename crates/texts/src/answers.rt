// An input's name, and what the task program answers to it.
use std::io;

pub fn answer_to(rt: &impl Print, name: &str, input: &[u8]) -> io::Result<()> {
    let mut page = [0; text::PAGE];
    let end = text::answer(input, &mut page);
    println!(rt; "{name}:")?;
    rt.write_all(&page[..end])
}
