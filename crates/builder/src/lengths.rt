// The three gather lengths, brought up to date from those held and the peg of the largest disc.
ghost use Rattle.std.specs.Prelude.{◌≡◌, ◌≤◌, take};
ghost use Rattle.board.specs.Position.{WellFormed};
ghost use Rattle.board.specs.Task.{limit};
ghost use Rattle.builder.specs.Inner.Lengths.{Grows, Shrinks};
ghost use Rattle.builder.specs.Lengths.{gathers, lengths_with, lengths_without};

use board::LIMIT;

// The lengths of d discs, once disc d + 1 stands on `peg`. That peg keeps its length; the other two exchange theirs, and each is 2^d more.
#[tactic(auto, using(plan::proofs::Fits::shl_power, crate::proofs::Gathers::exchanged_with))]
pub fn with_disc(lengths: &mut [u64; 3], d: usize, peg: u8)
    requires { Grows lengths.old d peg }
    ensures { lengths.new ≡ lengths_with lengths.old d peg }
{
    let i = ((peg + 1) % 3) as usize;
    let k = ((peg + 2) % 3) as usize;
    let far = 1 << d;
    (lengths[i], lengths[k]) = (lengths[k] + far, lengths[i] + far);
}

// The lengths of d discs, from those with disc d + 1 on `peg`: the same read backwards.
// Stays: no plainer as one with `with_disc`, where a flag, a sum that wraps or a closure with a clause of its own would stand for + and -.
#[tactic(auto, using(plan::proofs::Fits::shl_power, crate::proofs::Gathers::exchanged_without))]
pub fn without_disc(lengths: &mut [u64; 3], d: usize, peg: u8)
    requires { Shrinks lengths.old d peg }
    ensures { lengths.new ≡ lengths_without lengths.old d peg }
{
    let i = ((peg + 1) % 3) as usize;
    let k = ((peg + 2) % 3) as usize;
    let far = 1 << d;
    (lengths[i], lengths[k]) = (lengths[k] - far, lengths[i] - far);
}

// The lengths of n discs, from the smallest disc up.
#[tactic(auto, using(crate::proofs::Gathers::gathers_none, crate::proofs::Gathers::gathers_next, crate::proofs::Gathers::next_grows))]
pub fn lengths_of(n: usize, position: [u8; LIMIT]) -> [u64; 3]
    requires n_le_limit { n ≤ limit }
    requires well_formed { WellFormed (take n position) }
    ensures { result ≡ gathers (take n position) }
{
    let mut lengths = [0; 3];
    for (d, peg) in position[..n].iter().enumerate() {
        with_disc(&mut lengths, d, *peg);
    }
    lengths
}
