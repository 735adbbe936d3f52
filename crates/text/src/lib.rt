// The task program on byte slices: its reader and its report.
#![tactic(auto)]

mod list;
mod put;
mod read;
mod report;

ghost use Rattle.std.specs.Prelude.{◌≡◌, ◌≤◌, length};
ghost use Rattle.text.specs.Answer.{text_answer, answer_text, answered_page};
ghost use Rattle.text.specs.Inner.Page.{put_reply};

use board::Refusal;
pub use put::PAGE;
use put::{Page, put_line};
use read::Digits;
pub use read::MOST;

// Puts the report of the task that an input is at the start of a page. Refuses with 12, 1, 2 and 3.
#[tactic(auto, using(board::proofs::Replies::goes_up, crate::proofs::Answers::unread, crate::proofs::Answers::unplanned, crate::proofs::Answers::planned, crate::proofs::Answers::reported))]
fn put_report_of(page: &mut Page, input: &[u8]) -> Result<(), Refusal>
    ensures { put_reply result page.new.items ≡ text_answer input.now }
{
    let mut digits = Digits::new();
    read::read_task(input, &mut digits)?;
    let task = digits.as_slice();
    let plan = plan::plan(task)?;
    report::put_report(page, task, plan);
    Ok(())
}

// Puts the answer to an input at the start of a page: its report, or the line of its refusal.
#[tactic(auto, unfolding(crate::specs::Answer::answer_text, crate::specs::Answer::refused_text))]
fn put_answer(page: &mut Page, input: &[u8])
    ensures { page.new.items ≡ answer_text input.now }
{
    if let Err(why) = put_report_of(page, input) {
        page.clear();
        put_line(page, b"refused ", why.number());
    }
}

// The task program: puts the answer to the bytes of its standard input at the start of a page, and says how long it is. The other bytes
// stay. Refuses with 12, 1, 2 and 3. The answer is made on a page of its own and copied, so that the lent page is written once.
// Stays: an array with the length beside it, as `answered_page` of specs/Answer in the clause of this public function has it.
#[tactic(auto, unfolding(crate::specs::Answer::answered_page))]
pub fn answer(input: &[u8], page: &mut [u8; PAGE]) -> usize
    ensures value { result ≡ length (answer_text input.now) }
    ensures page_after { page.new ≡ answered_page input.now page.old }
    ensures upper_bound { result ≤ 8192 }
{
    let mut own = Page::new();
    put_answer(&mut own, input);
    page[..own.len()].copy_from_slice(own.as_slice());
    own.len()
}
