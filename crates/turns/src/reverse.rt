// A row of samples written from its last to its first. It is read from its end back or from its start on, as the caller says: so a
// plane whose rows run up, or down, is read in one direction.
ghost use Rattle.std.specs.Prelude.{◌≡◌, ◌+◌, ◌*◌, ◌≤◌, length};
ghost use Rattle.laws.specs.Puts.{puts};
ghost use Rattle.turns.specs.inner.Stepped.{SteppedFits, stepped};

use crate::steps::write_steps;

// Writes n bytes at `at`, that at `from` first and those before it after it, and returns the place past them. Reads from the start on.
fn bytes_forth(out: &mut [u8], at: usize, plane: &[u8], from: usize, n: usize) -> usize
    requires { (from + 1 ≤ length plane.now) × (n ≤ from + 1) × (at + n ≤ length out.old) }
    ensures { (result ≡ at + n) × (out.new ≡ puts out.old at (stepped plane.now 1 from 0 1 n)) }
{
    let first = from + 1 - n;
    let end = at + n;
    for k in 0..n {
        out[end - 1 - k] = plane[first + k];
    }
    end
}

// Writes four samples of two bytes, the last first. Every byte is read before one is written.
fn reverse_four(out: &mut [u8], i: usize, plane: &[u8], j: usize)
    requires { (j + 8 ≤ length plane.now) × (i + 8 ≤ length out.old) }
    ensures { out.new ≡ puts out.old i (stepped plane.now 2 (j + 6) 0 2 4) }
{
    let a = plane[j];
    let b = plane[j + 1];
    let c = plane[j + 2];
    let d = plane[j + 3];
    let e = plane[j + 4];
    let f = plane[j + 5];
    let g = plane[j + 6];
    let h = plane[j + 7];
    out[i] = g;
    out[i + 1] = h;
    out[i + 2] = e;
    out[i + 3] = f;
    out[i + 4] = c;
    out[i + 5] = d;
    out[i + 6] = a;
    out[i + 7] = b;
}

// Writes m times four samples of two bytes at `at`, that at `from` first and those before it after it. `BACK`: reads from the end back,
// else from the start on.
fn reverse_fours<const BACK: bool>(out: &mut [u8], at: usize, plane: &[u8], from: usize, m: usize)
    requires { (from + 2 ≤ length plane.now) × (8 * m ≤ from + 2) × (at + 8 * m ≤ length out.old) }
    ensures { out.new ≡ puts out.old at (stepped plane.now 2 from 0 2 (4 * m)) }
{
    let mut left = m;
    for k in 0..m {
        left -= 1;
        let q = if BACK { k } else { left };
        reverse_four(out, at + 8 * q, plane, from - 8 * q - 6);
    }
}

// Writes n samples of two bytes, and returns the place past them.
fn reverse_pairs(
    out: &mut [u8],
    at: usize,
    plane: &[u8],
    from: usize,
    n: usize,
    back: bool,
) -> usize
    requires { (from + 2 ≤ length plane.now) × (2 * n ≤ from + 2) × (at + 2 * n ≤ length out.old) }
    ensures { (result ≡ at + n * 2) × (out.new ≡ puts out.old at (stepped plane.now 2 from 0 2 n)) }
{
    let m = n / 4;
    let rest = n - 4 * m;
    if back {
        reverse_fours::<true>(out, at, plane, from, m);
    } else {
        reverse_fours::<false>(out, at, plane, from, m);
    }
    if rest == 0 {
        return at + n * 2;
    }
    write_steps::<2>(out, at + 8 * m, plane, from - 8 * m, 0, 2, rest)
}

// Writes n samples at `at`, that at `from` first and those before it after it, and returns the place past them. `back`: the plane is
// read from the end back.
pub fn reverse_row(
    out: &mut [u8],
    at: usize,
    plane: &[u8],
    bytes: usize,
    from: usize,
    n: usize,
    back: bool,
) -> usize
    requires { SteppedFits plane.now bytes from 0 bytes n × (at + n * bytes ≤ length out.old) }
    ensures { (result ≡ at + n * bytes) × (out.new ≡ puts out.old at (stepped plane.now bytes from 0 bytes n)) }
{
    if n == 0 {
        return at;
    }
    if bytes == 2 {
        reverse_pairs(out, at, plane, from, n, back)
    } else if back {
        write_steps::<1>(out, at, plane, from, 0, 1, n)
    } else {
        bytes_forth(out, at, plane, from, n)
    }
}
