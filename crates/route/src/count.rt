// How many moves a list call writes.
ghost use Rattle.std.specs.Prelude.{◌≡◌, min};

// As many as remain or fit, the lesser.
pub fn lesser(remain: u64, fit: usize) -> usize
    ensures { result ≡ min remain fit }
{
    remain.min(fit as u64) as usize
}
