// Samples that stand so many bytes apart, written one after the other.
ghost use Rattle.std.specs.Prelude.{◌≡◌, ◌+◌, ◌*◌, ◌≤◌, length};
ghost use Rattle.laws.specs.Puts.{puts};
ghost use Rattle.turns.specs.inner.Stepped.{SteppedFits, stepped};

// Writes n samples at `at`, from the one at `from` on, each so many bytes ahead of the last or behind it, and returns the place past
// them. A sample's first and last byte are one byte where it has only one.
pub(crate) fn write_steps<const BYTES: usize>(
    out: &mut [u8],
    at: usize,
    plane: &[u8],
    from: usize,
    forth: usize,
    back: usize,
    n: usize,
) -> usize
    requires { SteppedFits plane.now BYTES from forth back n × (at + n * BYTES ≤ length out.old) }
    ensures { (result ≡ at + n * BYTES) × (out.new ≡ puts out.old at (stepped plane.now BYTES from forth back n)) }
{
    let last = BYTES - 1;
    for k in 0..n {
        let j = from + k * forth - k * back;
        let i = at + k * BYTES;
        let a = plane[j];
        let b = plane[j + last];
        out[i] = a;
        out[i + last] = b;
    }
    at + n * BYTES
}

// Writes n samples at `at`, from the one at `from` on, each so many bytes ahead of the last, and returns the place past
// them. Chosen once a row: the loop is compiled for one byte and for two.
pub fn write_apart(
    out: &mut [u8],
    at: usize,
    plane: &[u8],
    bytes: usize,
    from: usize,
    step: usize,
    n: usize,
) -> usize
    requires { SteppedFits plane.now bytes from step 0 n × (at + n * bytes ≤ length out.old) }
    ensures { (result ≡ at + n * bytes) × (out.new ≡ puts out.old at (stepped plane.now bytes from step 0 n)) }
{
    if bytes == 1 {
        write_steps::<1>(out, at, plane, from, step, 0, n)
    } else {
        write_steps::<2>(out, at, plane, from, step, 0, n)
    }
}
