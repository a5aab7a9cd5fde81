// Samples and rows of a plane. A plane is a part of the slice that holds its record, handed on as a slice of its own.
ghost use Rattle.std.specs.Prelude.{◌≡◌, ◌+◌, ◌*◌, ◌≤◌, length};
ghost use Rattle.laws.specs.Pick.{pick};
ghost use Rattle.laws.specs.Puts.{puts};
ghost use Rattle.image.specs.Format.{cover};
ghost use Rattle.records.specs.Record.{data_of};
ghost use Rattle.planes.specs.Bytes.{sample_in, sample_bytes, samples_of};
ghost use Rattle.planes.specs.inner.Promoted.{PromotedFits, even_bytes, promoted_in};
ghost use Rattle.planes.specs.inner.Line.{LineFits, line_bytes};

use image::{Part, PixelFormat};
use records::Plane;

// A plane's own bytes.
#[tactic(auto, unfolding(records::specs::Record::data_of))]
pub fn plane_data(s: &[u8], p: Plane) -> &[u8]
    requires { p.start + p.len ≤ length s.now }
    ensures { result.now ≡ data_of s.now p }
{
    &s[p.start..p.start + p.len]
}

// The sample at a column and a row of a plane.
#[tactic(auto, unfolding(crate::specs::Bytes::sample_in, crate::specs::Bytes::sample_at, laws::specs::Pick::pick))]
pub fn sample(plane: &[u8], bytes: usize, stride: usize, x: usize, y: usize) -> u16
    requires { (1 ≤ bytes) × (bytes ≤ 2) × (y * stride + x * bytes + bytes ≤ length plane.now) }
    ensures { result ≡ sample_in plane.now bytes stride x y }
{
    let i = y * stride + x * bytes;
    if bytes == 1 {
        plane[i] as u16
    } else {
        plane[i] as u16 + 256 * (plane[i + 1] as u16)
    }
}

// Along one axis, the sample that covers a place.
#[tactic(auto, unfolding(image::specs::Format::cover))]
pub fn covering(half: bool, x: usize) -> usize
    ensures { result ≡ cover half x }
{
    if half { x / 2 } else { x }
}

// The sample that promotion to 4:4:4 puts at a place of the picture: the one that covered it, or 2^(depth - 1) where the picture has
// not the plane.
#[tactic(auto, unfolding(crate::specs::inner::Promoted::promoted_in, laws::specs::Pick::pick))]
pub fn promoted(
    plane: &[u8],
    format: PixelFormat,
    stride: usize,
    part: Part,
    x: usize,
    y: usize,
) -> u16
    requires { PromotedFits plane.now format stride part x y }
    ensures { result ≡ promoted_in plane.now format stride part x y }
{
    if format.has(part) {
        let cx = covering(format.half_width(part), x);
        let cy = covering(format.half_height(part), y);
        sample(plane, format.bytes_per_sample(), stride, cx, cy)
    } else {
        format.middle()
    }
}

// Writes a sample at `at`, and returns the place past it.
pub fn put_sample(out: &mut [u8], at: usize, bytes: usize, v: u16) -> usize
    requires { (1 ≤ bytes) × (bytes ≤ 2) × (at + bytes ≤ length out.old) }
    ensures { (result ≡ at + bytes) × (out.new ≡ puts out.old at (sample_bytes bytes v)) }
{
    out[at] = (v % 256) as u8;
    if bytes == 1 {
        return at + 1;
    }
    out[at + 1] = (v / 256) as u8;
    at + 2
}

// Writes a row's bytes at `at`, and returns the place past them.
pub fn copy_row(out: &mut [u8], at: usize, row: &[u8]) -> usize
    requires { at + length row.now ≤ length out.old }
    ensures { (result ≡ at + length row.now) × (out.new ≡ puts out.old at row.now) }
{
    for i in 0..row.len() {
        out[at + i] = row[i];
    }
    at + row.len()
}

// Writes the same bytes n times at `at`, and returns the place past them.
fn fill_bytes<const BYTES: usize>(out: &mut [u8], at: usize, v: [u8; BYTES], n: usize) -> usize
    requires { at + n * BYTES ≤ length out.old }
    ensures { (result ≡ at + n * BYTES) × (out.new ≡ puts out.old at (even_bytes v.entry n)) }
{
    let mut i = at;
    for _k in 0..n {
        i = copy_row(out, i, &v);
    }
    i
}

// Writes one sample n times at `at`, and returns the place past them.
pub fn fill_row(out: &mut [u8], at: usize, bytes: usize, v: u16, n: usize) -> usize
    requires { (1 ≤ bytes) × (bytes ≤ 2) × (at + n * bytes ≤ length out.old) }
    ensures { (result ≡ at + n * bytes) × (out.new ≡ puts out.old at (samples_of bytes (λ x. v) n)) }
{
    let low = (v % 256) as u8;
    if bytes == 1 {
        fill_bytes(out, at, [low], n)
    } else {
        fill_bytes(out, at, [low, (v / 256) as u8], n)
    }
}

// A line of samples through a plane. Its k-th sample stands at origin + u × step bytes, where u is from + k or from - k
// (forth and back are 1 and 0, or 0 and 1), or half of that (half is 1).
#[derive(Clone, Copy)]
pub struct Line {
    pub origin: usize,
    pub step: usize,
    pub from: usize,
    pub forth: usize,
    pub back: usize,
    pub half: u32,
}

// How far a line's steps are shifted along an axis that is halved, or not.
#[tactic(auto, unfolding(laws::specs::Pick::pick))]
pub fn shift(half: bool) -> u32
    ensures { result ≡ pick half 1 0 }
{
    if half { 1 } else { 0 }
}

// Writes the first n samples of a line at `at`, sample by sample, and returns the place past them. A sample's first and last
// byte are one byte where it has only one.
fn copy_line(out: &mut [u8], at: usize, plane: &[u8], bytes: usize, line: Line, n: usize) -> usize
    requires { LineFits plane.now bytes line n × (at + n * bytes ≤ length out.old) }
    ensures { (result ≡ at + n * bytes) × (out.new ≡ puts out.old at (line_bytes plane.now bytes line n)) }
{
    let last = bytes - 1;
    let Line {
        origin,
        step,
        from,
        forth,
        back,
        half,
    } = line;
    let mut i = at;
    for k in 0..n {
        let u = (from + k * forth - k * back) >> half;
        let j = origin + u * step;
        out[i] = plane[j];
        out[i + last] = plane[j + last];
        i += bytes;
    }
    i
}

// Writes the first n samples of a line at `at`, and returns the place past them. Samples that stand one after the other are
// copied as a row.
pub fn write_line(
    out: &mut [u8],
    at: usize,
    plane: &[u8],
    bytes: usize,
    line: Line,
    n: usize,
) -> usize
    requires { LineFits plane.now bytes line n × (at + n * bytes ≤ length out.old) }
    ensures { (result ≡ at + n * bytes) × (out.new ≡ puts out.old at (line_bytes plane.now bytes line n)) }
{
    if n == 0 {
        return at;
    }
    if line.step == bytes && line.half == 0 && line.forth == 1 && line.back == 0 {
        let a = line.origin + line.from * bytes;
        let e = a + n * bytes;
        return copy_row(out, at, &plane[a..e]);
    }
    copy_line(out, at, plane, bytes, line, n)
}
