// Numbers of eight bytes each in bytes that may be anything: nothing is asked of them, and nothing past their end is written.
ghost use Rattle.std.specs.Prelude.{◌≡◌};
ghost use Rattle.words.specs.Spots.{number_put};

// Puts n as number k, low byte first.
pub fn put(b: &mut [u8], k: usize, n: u64)
    ensures { b.new ≡ number_put b.old k n }
{
    if k < b.len() / 8 {
        b[8 * k..8 * k + 8].copy_from_slice(&n.to_le_bytes());
    }
}
