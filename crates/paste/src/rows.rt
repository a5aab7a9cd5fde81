// Rows of samples stored one below the other.
ghost use Rattle.std.specs.Prelude.{◌≡◌, ◌+◌, ◌*◌, ◌≤◌, ◌<◌, ◌^◌, ℕ, length, min};
ghost use Rattle.planes.specs.Bytes.{samples_of};
ghost use Rattle.paste.specs.Stored.{store_rows};
ghost use Rattle.paste.specs.inner.Source.{RowsFit, capped_row, source_row};
ghost use Rattle.image.specs.Format.{cover};
ghost use Rattle.laws.specs.Puts.{puts};

use planes::Line;

// Where samples are read in a plane's bytes: the place of the first, and whether an axis is halved and so walked place by place.
#[derive(Clone, Copy)]
pub struct Source {
    pub bytes: usize,
    pub stride: usize,
    pub half_across: bool,
    pub half_down: bool,
    pub x: usize,
    pub y: usize,
}

// So many samples of so many rows of a plane, stored from `at` on, `stride` bytes from row to row.
pub fn store_rows(
    out: &mut [u8],
    at: usize,
    stride: usize,
    across: usize,
    down: usize,
    plane: &[u8],
    s: Source,
)
    requires { RowsFit (length out.old) (length plane.now) at stride across down s }
    ensures { out.new ≡ store_rows out.old at stride (source_row plane.now s across) down }
{
    let half = planes::shift(s.half_across);
    let bytes = s.bytes;
    let x = s.x;
    for k in 0..down {
        let line = Line {
            origin: planes::covering(s.half_down, s.y + k) * s.stride,
            step: bytes,
            from: x,
            forth: 1,
            back: 0,
            half,
        };
        planes::write_line(out, at + k * stride, plane, bytes, line, across);
    }
}

// A sample held to top.
fn capped(v: u16, top: u16) -> u16
    ensures { result ≡ min v top }
{
    v.min(top)
}

// A row of samples, each held to top, at `at`.
fn store_capped_row(
    out: &mut [u8],
    at: usize,
    across: usize,
    plane: &[u8],
    s: Source,
    top: u16,
    k: usize,
)
    requires { (1 ≤ s.bytes) × (s.bytes ≤ 2) × (s.x + across < 2 ^ 32) × (s.y + k < 2 ^ 32) × (at + across * s.bytes ≤ length out.old)
        × ((i : ℕ) → i < across → cover s.half_down (s.y + k) * s.stride + cover s.half_across (s.x + i) * s.bytes + s.bytes ≤ length plane.now) }
    ensures { out.new ≡ puts out.old at (capped_row plane.now s top across k) }
{
    let bytes = s.bytes;
    let stride = s.stride;
    let row = planes::covering(s.half_down, s.y + k);
    let mut to = at;
    for i in 0..across {
        let column = planes::covering(s.half_across, s.x + i);
        let v = planes::sample(plane, bytes, stride, column, row);
        to = planes::put_sample(out, to, bytes, capped(v, top));
    }
}

// The same, each sample held to top.
pub fn store_capped(
    out: &mut [u8],
    at: usize,
    stride: usize,
    across: usize,
    down: usize,
    plane: &[u8],
    s: Source,
    top: u16,
)
    requires { RowsFit (length out.old) (length plane.now) at stride across down s }
    ensures { out.new ≡ store_rows out.old at stride (capped_row plane.now s top across) down }
{
    for k in 0..down {
        store_capped_row(out, at + k * stride, across, plane, s, top, k);
    }
}

// One sample in so many columns of so many rows.
pub fn store_even(
    out: &mut [u8],
    at: usize,
    stride: usize,
    across: usize,
    down: usize,
    bytes: usize,
    v: u16,
)
    requires { (1 ≤ bytes) × (bytes ≤ 2) × ((k : ℕ) → k < down → at + k * stride + across * bytes ≤ length out.old) }
    ensures { out.new ≡ store_rows out.old at stride (λ k. samples_of bytes (λ i. v) across) down }
{
    for k in 0..down {
        planes::fill_row(out, at + k * stride, bytes, v, across);
    }
}
