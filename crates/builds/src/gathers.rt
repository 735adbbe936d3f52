// Whether a builder's lengths are Gather's.
use board::LIMIT;
use builder::Builder;
use plan::gather;

// Whether each of a builder's lengths is what Gather answers for its position and that peg.
pub fn as_gather(b: &Builder) -> bool {
    if LIMIT < b.n {
        return false;
    }
    let position = &b.position[..b.n];
    (0u8..)
        .zip(b.lengths)
        .all(|(peg, length)| gather(position, peg) == Ok(length))
}
