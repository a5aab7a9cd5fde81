// The rows of a plane that a rule works out from another plane's samples, in the way that suits the rule.
ghost use Rattle.std.specs.Prelude.{◌≡◌, ◌+◌, ◌*◌, ◌<◌, ◌≤◌, length};
ghost use Rattle.laws.specs.Puts.{puts};
ghost use Rattle.sampling.specs.inner.Redraw.{row_of, has_steps, raster_at, raster_row, raster_bytes, RuleFits, RuleRowFits};

use sampling::{Depths, NearRow, Raster, RowRule, Rule, Source};

// What is fixed along row y.
#[tactic(auto, unfolding(sampling::specs::inner::Redraw::row_of))]
fn row_rule(s: Source<'_>, y: usize) -> RowRule
    requires { RuleFits s.raster.rule s.raster.across s.raster.down × (y < s.raster.down.to) }
    ensures { result ≡ row_of s.entry.raster.rule s.entry.raster.down y }
{
    match s.raster.rule {
        Rule::Near(depths) => RowRule::Near(NearRow {
            y: sampling::nearest_place(s.raster.down, y),
            depths,
        }),
        Rule::Area => RowRule::Area(sampling::footprint(s.raster.down, y)),
    }
}

// Sample x of a row.
fn row_sample(s: Source<'_>, row: RowRule, x: usize) -> u16
    requires { RuleRowFits row s.raster.across s.raster.down.from × (x < s.raster.across.to) }
    ensures { result ≡ raster_at s.entry.plane.now s.entry.raster row x }
{
    let r = s.raster;
    match row {
        RowRule::Near(k) => {
            let u = sampling::nearest_place(r.across, x);
            k.depths
                .level(planes::sample(s.plane, r.bytes, r.stride, u, k.y))
        }
        RowRule::Area(down) => {
            let foot = sampling::footprint(r.across, x);
            sampling::area_sample(s.plane, r.bytes, r.stride, foot, down)
        }
    }
}

// Writes a row of the new plane sample by sample, and returns the place past it.
fn write_samples(out: &mut [u8], at: usize, s: Source<'_>, row: RowRule) -> usize
    requires { RuleRowFits row s.raster.across s.raster.down.from × (at + s.raster.across.to * s.raster.to_bytes ≤ length out.old) }
    ensures { (result ≡ at + s.entry.raster.across.to * s.entry.raster.to_bytes) × (out.new ≡ puts out.old at (raster_row s.entry.plane.now s.entry.raster row)) }
{
    let mut i = at;
    for x in 0..s.raster.across.to {
        i = planes::put_sample(out, i, s.raster.to_bytes, row_sample(s, row, x));
    }
    i
}

// Whether the samples of a row stand so many samples apart, and are kept as they are.
#[tactic(auto, unfolding(sampling::specs::inner::Redraw::has_steps))]
fn has_steps(r: Raster, depths: Depths) -> bool
    requires { 1 ≤ r.across.to }
    ensures { result ≡ has_steps r depths }
{
    depths.old == depths.new && r.bytes == r.to_bytes && r.across.from % r.across.to == 0
}

// Writes a row of the new plane in the way that suits it, and returns the place past it.
fn write_row(out: &mut [u8], at: usize, s: Source<'_>, row: RowRule) -> usize
    requires { RuleRowFits row s.raster.across s.raster.down.from × (at + s.raster.across.to * s.raster.to_bytes ≤ length out.old) }
    ensures { (result ≡ at + s.entry.raster.across.to * s.entry.raster.to_bytes) × (out.new ≡ puts out.old at (raster_row s.entry.plane.now s.entry.raster row)) }
{
    let r = s.raster;
    match row {
        RowRule::Near(k) => {
            if has_steps(r, k.depths) {
                let step = r.across.from / r.across.to * r.bytes;
                let from = k.y * r.stride;
                turns::write_apart(out, at, s.plane, r.bytes, from, step, r.across.to)
            } else {
                write_samples(out, at, s, row)
            }
        }
        RowRule::Area(down) => {
            if down.end - down.start <= 65536 {
                means::write_area_row(out, at, s, down)
            } else {
                write_samples(out, at, s, row)
            }
        }
    }
}

// Writes the rows of the new plane row by row, and returns the place past them.
fn write_each(out: &mut [u8], at: usize, s: Source<'_>) -> usize
    requires { RuleFits s.raster.rule s.raster.across s.raster.down × (at + s.raster.down.to * (s.raster.across.to * s.raster.to_bytes) ≤ length out.old) }
    ensures { (result ≡ at + s.entry.raster.down.to * (s.entry.raster.across.to * s.entry.raster.to_bytes)) × (out.new ≡ puts out.old at (raster_bytes s.entry.plane.now s.entry.raster)) }
{
    let mut i = at;
    for y in 0..s.raster.down.to {
        i = write_row(out, i, s, row_rule(s, y));
    }
    i
}

// Writes the rows of the new plane in the way that suits them, and returns the place past them.
pub fn write_rows(out: &mut [u8], at: usize, s: Source<'_>) -> usize
    requires { RuleFits s.raster.rule s.raster.across s.raster.down × (at + s.raster.down.to * (s.raster.across.to * s.raster.to_bytes) ≤ length out.old) }
    ensures { (result ≡ at + s.entry.raster.down.to * (s.entry.raster.across.to * s.entry.raster.to_bytes)) × (out.new ≡ puts out.old at (raster_bytes s.entry.plane.now s.entry.raster)) }
{
    if let Rule::Near(depths) = s.raster.rule {
        if depths.old == 10 && depths.new == 8 {
            return ten_to_eight::write_rows(out, at, s);
        }
        if crate::levels::has_table(s, depths) {
            return crate::levels::write_levels(out, at, s, depths);
        }
    }
    write_each(out, at, s)
}
