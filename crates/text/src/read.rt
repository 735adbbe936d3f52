// The reader: two lines, each a position in single digits.
ghost use Rattle.std.specs.Prelude.{[], ◌++◌, ◌≡◌, ◌+◌, ◌≤◌, length};
ghost use Rattle.text.specs.Inner.Page.{put_reply, read_answer};
ghost use Rattle.text.specs.Reading.{follow, follow_all, lines, is_bracket, is_text, digits as digits_of, line_end};
ghost use Rattle.text.specs.declared.read.Next.TheVariants.{Bracket};

use crate::list::List;
use board::Refusal;

// The most bytes of a text.
pub const MOST: usize = 512;

// The digits of a text: no more than it has bytes.
pub type Digits = List<MOST>;

// What may come next in a text.
#[derive(Clone, Copy)]
enum Next {
    Bracket,
    DigitOrEnd,
    CommaOrEnd,
    Space,
    Digit,
    Newline,
    Nothing,
}

impl Next {
    // What may come after a byte.
    #[tactic(auto, using(std::proofs::lemmas::Bool::Decides::nat_tests), unfolding(crate::specs::Reading::follow, crate::specs::Reading::is_digit))]
    fn after(self, byte: u8) -> Next
        ensures { result ≡ follow self byte }
    {
        match (self, byte) {
            (Next::Bracket, b'[') => Next::DigitOrEnd,
            (Next::DigitOrEnd | Next::CommaOrEnd, b']') => Next::Newline,
            (Next::DigitOrEnd | Next::Digit, b'0'..=b'9') => Next::CommaOrEnd,
            (Next::CommaOrEnd, b',') => Next::Space,
            (Next::Space, b' ') => Next::Digit,
            (Next::Newline, b'\n') => Next::Bracket,
            _ => Next::Nothing,
        }
    }

    // Whether a line may begin.
    fn is_bracket(self) -> bool
        ensures { result ≡ is_bracket self }
    {
        matches!(self, Next::Bracket)
    }
}

// How many lines end in some bytes.
#[tactic(auto, using(crate::proofs::Reading::lines_count))]
fn newlines(input: &[u8]) -> usize
    ensures { result ≡ lines input.now }
{
    input.iter().filter(|b| **b == b'\n').count()
}

// What may come after some bytes that begin a line.
fn next_after(input: &[u8]) -> Next
    ensures { result ≡ follow_all Bracket input.now }
{
    input.iter().fold(Next::Bracket, |next, b| next.after(*b))
}

// Whether bytes are the text of two positions.
#[tactic(auto, using(std::proofs::lemmas::Bool::Decides::nat_tests), unfolding(crate::specs::Reading::is_text))]
fn is_text(input: &[u8]) -> bool
    ensures { result ≡ is_text input.now }
{
    input.len() <= MOST && newlines(input) == 2 && next_after(input).is_bracket()
}

// Where the first line ends.
// Stays: the length and no `Option` where no line ends, as `line_end` of specs/Reading has it.
fn line_end(input: &[u8]) -> usize
    ensures value { result ≡ line_end input.now }
    ensures bound { result ≤ length input.now }
{
    input
        .iter()
        .position(|b| *b == b'\n')
        .unwrap_or(input.len())
}

// Puts the digits among some bytes onto a list of digits.
#[tactic(auto, using(std::proofs::lemmas::Bool::Decides::nat_tests, crate::proofs::Reading::digits_here, crate::proofs::Reading::digits_past, crate::proofs::Reading::digits_none), unfolding(crate::specs::Reading::is_digit))]
fn put_digits(digits: &mut Digits, bytes: &[u8])
    requires { length digits.old.items + length bytes.now ≤ 512 }
    ensures { digits.new.items ≡ digits.old.items ++ digits_of bytes.now }
{
    for byte in bytes {
        if byte.is_ascii_digit() {
            digits.push(*byte - b'0');
        }
    }
}

// Puts the digits of both lines onto an empty list, the goal's straight after the start's. Refuses with 12, and with 1 where one line has
// more of them.
#[tactic(auto, using(std::proofs::lemmas::Bool::Decides::nat_tests, crate::proofs::Reading::text_fits, crate::proofs::Reading::digits_few), unfolding(crate::specs::Inner::Page::read_answer, crate::specs::Reading::start_in, crate::specs::Reading::goal_in))]
pub fn read_task(input: &[u8], digits: &mut Digits) -> Result<(), Refusal>
    requires { digits.old.items ≡ [] }
    ensures { put_reply result digits.new.items ≡ read_answer input.now }
{
    if !is_text(input) {
        return Err(Refusal::BadText);
    }
    let (first, second) = input.split_at(line_end(input));
    put_digits(digits, first);
    let start = digits.len();
    put_digits(digits, second);
    if digits.len() - start != start {
        return Err(Refusal::OddLength);
    }
    Ok(())
}
