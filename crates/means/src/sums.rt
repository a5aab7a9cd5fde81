// A row of means by column sums: what the rows under a footprint come to, column by column, for a stretch of columns at a time.
ghost use Rattle.std.specs.Prelude.{◌≡◌, ◌&&◌, ℕ, ◌+◌, ◌-◌, ◌*◌, ◌/◌, ◌<◌, ◌≤◌, ◌^◌, leb, length, get_or};
ghost use Rattle.laws.specs.Puts.{puts};
ghost use Rattle.planes.specs.Bytes.{sample_in};
ghost use Rattle.sampling.specs.Area.{first_of, past_of, weighed, area_mean};
ghost use Rattle.sampling.specs.Rounded.{rounded};
ghost use Rattle.sampling.specs.declared.raster.RowRule.{RowRule};
ghost use Rattle.sampling.specs.inner.Sums.{FootIn};
ghost use Rattle.sampling.specs.inner.Redraw.{raster_row};
ghost use Rattle.means.specs.inner.Columns.{stand_of, pace_of, foot_from, column_of, SumsHeld, MeansFits, AddFits};

use sampling::{Axis, Foot, Raster, Source};

// A quotient and its remainder.
#[derive(Clone, Copy)]
pub struct Stand {
    pub at: usize,
    pub rest: usize,
}

// Where the samples of an axis have their places: at first, and on by a step, all divided by one number.
#[derive(Clone, Copy)]
pub struct Pace {
    pub first: usize,
    pub step: usize,
    pub by: usize,
}

// The columns that are held: from, and up to but not including.
#[derive(Clone, Copy)]
pub struct Held {
    pub first: usize,
    pub past: usize,
}

// A number by another, with the remainder.
#[tactic(auto, unfolding(crate::specs::inner::Columns::stand_of))]
fn stand_at(n: usize, by: usize) -> Stand
    requires { 1 ≤ by }
    ensures { result ≡ stand_of n by }
{
    Stand {
        at: n / by,
        rest: n % by,
    }
}

// A quotient moved on by another of the same divisor.
fn advance(s: Stand, step: Stand, by: usize) -> Stand
    requires { (s.rest < by) × (step.rest < by) × (by ≤ 2 ^ 40) × (s.at ≤ 2 ^ 62) × (step.at ≤ 2 ^ 62) }
    ensures { result ≡ stand_of ((s.at + step.at) * by + (s.rest + step.rest)) by }
{
    let at = s.at + step.at;
    let rest = s.rest + step.rest;
    if by <= rest {
        Stand {
            at: at + 1,
            rest: rest - by,
        }
    } else {
        Stand { at, rest }
    }
}

// The places of an axis: where the shares begin, or the centres.
#[tactic(auto, unfolding(crate::specs::inner::Columns::pace_of, laws::specs::Pick::pick))]
fn axis_pace(a: Axis) -> Pace
    requires { (a.from ≤ 2 ^ 26) × (a.to ≤ 2 ^ 26) }
    ensures { result ≡ pace_of a }
{
    if a.to <= a.from {
        Pace {
            first: 0,
            step: 256 * a.from,
            by: a.to,
        }
    } else {
        Pace {
            first: 256 * a.from,
            step: 512 * a.from,
            by: 2 * a.to,
        }
    }
}

// The footprint of a sample, by its own place and the next one's.
fn foot_from(a: Axis, p: usize, q: usize) -> Foot
    requires { (1 ≤ a.from) × (a.from ≤ 2 ^ 26) }
    ensures { result ≡ foot_from a p q }
{
    if a.to <= a.from {
        return Foot { start: p, end: q };
    }
    let start = p.saturating_sub(128).min(256 * (a.from - 1));
    Foot {
        start,
        end: start + 256,
    }
}

// Sets the first sums to zero.
fn clear(sums: &mut [u32], many: usize)
    requires { many ≤ length sums.old }
    ensures { (j : ℕ) → j < many → get_or sums.new j 0 ≡ 0 }
{
    sums[..many].fill(0);
}

// Adds the samples of row y, from column `first` on, each times a weight.
fn add_samples<const BYTES: usize>(
    sums: &mut [u32],
    plane: &[u8],
    r: Raster,
    first: usize,
    many: usize,
    y: usize,
    w: u16,
)
    requires { AddFits sums.old plane.now r first many y w × (r.bytes ≡ BYTES) }
    ensures { (j : ℕ) → j < many → get_or sums.new j 0 ≡ get_or sums.old j 0 + sample_in plane.now r.bytes r.stride (first + j) y * w }
{
    for j in 0..many {
        let v = planes::sample(plane, BYTES, r.stride, first + j, y) as u32;
        sums[j] += v * (w as u32);
    }
}

// The same. Chosen once a row: the loop is compiled for one byte and for two.
fn add_row(sums: &mut [u32], plane: &[u8], r: Raster, first: usize, many: usize, y: usize, w: u16)
    requires { AddFits sums.old plane.now r first many y w }
    ensures { (j : ℕ) → j < many → get_or sums.new j 0 ≡ get_or sums.old j 0 + sample_in plane.now r.bytes r.stride (first + j) y * w }
{
    if r.bytes == 1 {
        add_samples::<1>(sums, plane, r, first, many, y, w);
    } else {
        add_samples::<2>(sums, plane, r, first, many, y, w);
    }
}

// Whether a footprint lies in the columns that are held.
fn covers(held: Held, f: Foot) -> bool
    requires { (held.first ≤ 2 ^ 30) × (held.past ≤ 2 ^ 30) }
    ensures { result ≡ (leb (256 * held.first) f.start && leb f.end (256 * held.past)) }
{
    256 * held.first <= f.start && f.end <= 256 * held.past
}

// The sums under a footprint, each times its weight: its head, the whole columns, and its tail.
fn sum_long(sums: &[u32], first: usize, f: Foot) -> usize
    requires { (f.start < f.end) × (f.end ≤ 2 ^ 40) × (first ≤ first_of f) × (past_of f ≤ first + length sums.now) × (length sums.now ≤ 1024) }
    ensures { result ≡ weighed f (λ x. get_or sums.now (x - first) 0) }
{
    let from = f.start / 256;
    let edge = 256 * from + 256;
    let head = sums[from - first] as usize;
    if f.end <= edge {
        return head * (f.end - f.start);
    }
    let last = f.end / 256;
    let mut sum = head * (edge - f.start);
    for j in from + 1..last {
        sum += sums[j - first] as usize * 256;
    }
    let tail = f.end - 256 * last;
    if tail == 0 {
        return sum;
    }
    sum + sums[last - first] as usize * tail
}

// The same; a footprint that ends in the second column by its two parts.
fn sum_across(sums: &[u32], first: usize, f: Foot) -> usize
    requires { (f.start < f.end) × (f.end ≤ 2 ^ 40) × (first ≤ first_of f) × (past_of f ≤ first + length sums.now) × (length sums.now ≤ 1024) }
    ensures { result ≡ weighed f (λ x. get_or sums.now (x - first) 0) }
{
    let from = f.start / 256;
    let edge = 256 * from + 256;
    if edge < f.end && f.end <= edge + 256 {
        let head = sums[from - first] as usize;
        let next = sums[from + 1 - first] as usize;
        return head * (edge - f.start) + next * (f.end - edge);
    }
    sum_long(sums, first, f)
}

// A quotient to the nearest whole number, a half up. The divisors of a doubled and of a halved picture are powers of two.
#[tactic(auto, unfolding(sampling::specs::Rounded::rounded))]
fn round(n: usize, d: usize) -> usize
    requires { (1 ≤ d) × (n ≤ 2 ^ 63) × (d ≤ 2 ^ 63) }
    ensures { result ≡ rounded n d }
{
    match d {
        65536 => (n + 32768) / 65536,
        262144 => (n + 131072) / 262144,
        _ => (n + d / 2) / d,
    }
}

// A row of means: the plane that it is made of and the footprint of its rows, whose column sums fit 32 bits.
#[derive(Clone, Copy)]
struct Means<'a> {
    source: Source<'a>,
    down: Foot,
    ghost fits: { MeansFits source.raster down },
}

impl Means<'_> {
    // Adds the rows under the footprint.
    fn add_rows(self, sums: &mut [u32], first: usize, many: usize)
        requires { (first + many ≤ self.source.raster.across.from) × (many ≤ length sums.old) × ((j : ℕ) → j < many → get_or sums.old j 0 ≡ 0) }
        ensures { (j : ℕ) → j < many → get_or sums.new j 0 ≡ column_of self.entry.source.plane.now self.entry.source.raster self.entry.down (first + j) }
    {
        let plane = self.source.plane;
        let past = (self.down.end + 255) / 256;
        for y in self.down.start / 256..past {
            let w = sampling::weight(self.down, y) as u16;
            add_row(sums, plane, self.source.raster, first, many, y, w);
        }
    }

    // Holds the columns from a footprint's first one on, unless it lies in those that are held.
    fn hold(self, sums: &mut [u32], held: Held, f: Foot) -> Held
        requires { FootIn f self.source.raster.across.from × SumsHeld sums.old self.source.plane.now self.source.raster self.down held × (1024 ≤ length sums.old) × (held.first ≤ 2 ^ 30) × (held.past ≤ 2 ^ 30) }
        ensures { SumsHeld sums.new self.entry.source.plane.now self.entry.source.raster self.entry.down result × (result.first ≤ 2 ^ 30) × (result.past ≤ 2 ^ 30) }
    {
        if covers(held, f) {
            return held;
        }
        let first = f.start / 256;
        let many = (self.source.raster.across.from - first).min(1024);
        clear(sums, many);
        self.add_rows(sums, first, many);
        Held {
            first,
            past: first + many,
        }
    }

    // The mean under two footprints, by the columns that are held where the first lies in them.
    fn held_mean(self, sums: &[u32], held: Held, f: Foot) -> u16
        requires { FootIn f self.source.raster.across.from × SumsHeld sums.now self.source.plane.now self.source.raster self.down held × (length sums.now ≤ 1024) × (held.first ≤ 2 ^ 30) × (held.past ≤ 2 ^ 30) }
        ensures { result ≡ area_mean f self.entry.down (λ x y. sample_in self.entry.source.plane.now self.entry.source.raster.bytes self.entry.source.raster.stride x y) }
    {
        let down = self.down;
        if covers(held, f) {
            let sum = sum_across(sums, held.first, f);
            return round(sum, (f.end - f.start) * (down.end - down.start)) as u16;
        }
        let r = self.source.raster;
        sampling::area_sample(self.source.plane, r.bytes, r.stride, f, down)
    }

    // Writes the row, and returns the place past it.
    fn write_means(self, out: &mut [u8], at: usize, sums: &mut [u32]) -> usize
        requires { (length sums.old ≡ 1024) × (at + self.source.raster.across.to * self.source.raster.to_bytes ≤ length out.old) }
        ensures { (result ≡ at + self.entry.source.raster.across.to * self.entry.source.raster.to_bytes) × (out.new ≡ puts out.old at (raster_row self.entry.source.plane.now self.entry.source.raster (RowRule.Area self.entry.down))) }
    {
        let p = axis_pace(self.source.raster.across);
        let step = stand_at(p.step, p.by);
        let mut s = stand_at(p.first, p.by);
        let mut held = Held { first: 0, past: 0 };
        let mut i = at;
        for _x in 0..self.source.raster.across.to {
            let t = advance(s, step, p.by);
            let f = foot_from(self.source.raster.across, s.at, t.at);
            held = self.hold(sums, held, f);
            i = planes::put_sample(
                out,
                i,
                self.source.raster.to_bytes,
                self.held_mean(sums, held, f),
            );
            s = t;
        }
        i
    }
}

// Writes a row of means whose column sums fit 32 bits, and returns the place past it.
pub fn write_area_row(out: &mut [u8], at: usize, s: Source<'_>, down: Foot) -> usize
    requires { MeansFits s.raster down × (at + s.raster.across.to * s.raster.to_bytes ≤ length out.old) }
    ensures { (result ≡ at + s.entry.raster.across.to * s.entry.raster.to_bytes) × (out.new ≡ puts out.old at (raster_row s.entry.plane.now s.entry.raster (RowRule.Area down))) }
{
    let mut sums = [0u32; 1024];
    Means { source: s, down }.write_means(out, at, &mut sums)
}
