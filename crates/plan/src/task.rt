// A task without faults: its start and its goal.
ghost use Rattle.plan.specs.Inner.Sound.{Ends};

use board::Refusal;

// Two positions of one size, each of pegs and of no more discs than a board has.
#[derive(Clone, Copy)]
pub struct Task<'a> {
    pub start: &'a [u8],
    pub goal: &'a [u8],
    pub ghost ends: { Ends start.now goal.now },
}

impl<'a> Task<'a> {
    ghost use Rattle.std.specs.Prelude.{◌≡◌, length};
    ghost use Rattle.plan.specs.Inner.Read.{read_reply, read_answer};

    // The task that bytes are. Refuses with the task faults.
    #[tactic(auto, using(board::proofs::Replies::goes_up, board::proofs::Tasks::task_accepted, crate::proofs::Parts::part_to_end, crate::proofs::Sound::task_ends), unfolding(crate::specs::Inner::Read::read_answer))]
    pub fn read(bytes: &'a [u8]) -> Result<Task<'a>, Refusal>
        ensures { read_reply result ≡ read_answer bytes.now }
    {
        board::task_verdict(bytes)?;
        let n = bytes.len() / 2;
        Ok(Task {
            start: &bytes[..n],
            goal: &bytes[n..],
        })
    }

    // How many discs there are.
    pub fn discs(&self) -> usize
        ensures { result ≡ length self.now.start.now }
    {
        self.start.len()
    }
}
