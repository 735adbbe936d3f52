// The entries of a batch, one for each task.
ghost use Rattle.std.specs.Prelude.{map, ◌≡◌, ◌*◌, ◌≤◌, length};
ghost use Rattle.batch.specs.Tasks.{cut};
ghost use Rattle.word.specs.Words.{shortest_word};

use word::shortest_word;

// Writes the shortest length of each of the first tasks, of so many bytes each: as many as there are entries.
// Stays: each task at its place and no `chunks_exact(size)`: tasks of no discs have the size 0, which that does not take, and a test beside
// it would be no plainer.
pub fn write_entries(tasks: &[u8], size: usize, out: &mut [u64])
    requires { length out.old * size ≤ length tasks.now }
    ensures { out.new ≡ map shortest_word (cut size (length out.old) tasks.now) }
{
    for (i, entry) in out.iter_mut().enumerate() {
        *entry = shortest_word(&tasks[i * size..][..size]);
    }
}
