// Letters of pegs. A byte is handed on as a number of 64 bits, which the compiler can index by as it is.
ghost use Rattle.std.specs.Prelude.{◌≡◌};
ghost use Rattle.checker.specs.Letters.{is_letter, all_letters};

// The letters of the first peg and of the last.
pub const A: usize = b'A' as usize;

const C: usize = b'C' as usize;

// Whether a byte is A, B or C.
#[tactic(auto, unfolding(route::specs::Ours::read_peg))]
pub fn is_letter(byte: usize) -> bool
    ensures { result ≡ is_letter byte }
{
    matches!(byte, A..=C)
}

// Whether all bytes are.
pub fn only_letters(bytes: &[u8]) -> bool
    ensures { result ≡ all_letters bytes.now }
{
    bytes.iter().all(|byte| is_letter(*byte as usize))
}
