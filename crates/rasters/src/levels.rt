// Another depth by a table: what each sample becomes is worked out once a plane.
ghost use Rattle.std.specs.Prelude.{◌≡◌, true, ◌+◌, ◌*◌, ◌<◌, ◌≤◌, length};
ghost use Rattle.laws.specs.Puts.{puts};
ghost use Rattle.image.specs.Format.{top_at};
ghost use Rattle.sampling.specs.declared.raster.Rule.{Rule};
ghost use Rattle.rasters.specs.inner.Levels.{HasTable, Levels, look_of, looked_row};
ghost use Rattle.sampling.specs.inner.Redraw.{raster_bytes};

use image::PixelFormat;
use sampling::{Depths, Source};

// Whether a plane keeps its size, gets another depth from one of at most 12 bits, and has as many samples as the table would.
pub(crate) fn has_table(s: Source<'_>, depths: Depths) -> bool
    ensures { result ≡ true → HasTable s.entry.raster depths }
{
    let r = s.raster;
    depths.old != depths.new
        && depths.old <= 12
        && r.across.from == r.across.to
        && r.down.from == r.down.to
        && PixelFormat::top_at(depths.old) as usize <= r.across.to * r.down.to
}

// What the samples from 0 on become.
fn fill_table(table: &mut [u16], depths: Depths)
    requires { (length table.old ≤ 65536) }
    ensures { Levels table.new depths (length table.new) × (length table.new ≡ length table.old) }
{
    for (v, entry) in table.iter_mut().enumerate() {
        *entry = depths.level(v as u16);
    }
}

// What a sample becomes; one above the table is above the old top, and becomes the new one.
#[tactic(auto, unfolding(crate::specs::inner::Levels::look_of, laws::specs::Pick::pick))]
fn look_up(table: &[u16], top: u16, v: u16) -> u16
    ensures { result ≡ look_of table.now (length table.now) top v }
{
    if (v as usize) < table.len() {
        table[v as usize]
    } else {
        top
    }
}

// Writes row y of a plane at another depth, and returns the place past it.
fn write_looked(
    out: &mut [u8],
    at: usize,
    s: Source<'_>,
    y: usize,
    table: &[u16],
    top: u16,
) -> usize
    requires { (s.raster.across.from ≡ s.raster.across.to) × (y < s.raster.down.from) × (at + s.raster.across.to * s.raster.to_bytes ≤ length out.old) }
    ensures { (result ≡ at + s.entry.raster.across.to * s.entry.raster.to_bytes) × (out.new ≡ puts out.old at (looked_row s.entry.plane.now s.entry.raster table.now (length table.now) top y)) }
{
    let mut i = at;
    for x in 0..s.raster.across.to {
        let v = look_up(
            table,
            top,
            planes::sample(s.plane, s.raster.bytes, s.raster.stride, x, y),
        );
        i = planes::put_sample(out, i, s.raster.to_bytes, v);
    }
    i
}

// Writes the rows of a plane at another depth by a table that is filled first, and returns the place past them.
fn write_by(out: &mut [u8], at: usize, s: Source<'_>, depths: Depths, table: &mut [u16]) -> usize
    requires { (s.raster.rule ≡ Rule.Near depths) × HasTable s.raster depths × (length table.old ≡ top_at depths.old + 1) × (at + s.raster.down.to * (s.raster.across.to * s.raster.to_bytes) ≤ length out.old) }
    ensures { (result ≡ at + s.entry.raster.down.to * (s.entry.raster.across.to * s.entry.raster.to_bytes)) × (out.new ≡ puts out.old at (raster_bytes s.entry.plane.now s.entry.raster)) }
{
    fill_table(table, depths);
    let top = PixelFormat::top_at(depths.new);
    let mut i = at;
    for y in 0..s.raster.down.to {
        i = write_looked(out, i, s, y, table, top);
    }
    i
}

// Writes the rows of a plane at another depth, and returns the place past them.
pub(crate) fn write_levels(out: &mut [u8], at: usize, s: Source<'_>, depths: Depths) -> usize
    requires { (s.raster.rule ≡ Rule.Near depths) × HasTable s.raster depths × (at + s.raster.down.to * (s.raster.across.to * s.raster.to_bytes) ≤ length out.old) }
    ensures { (result ≡ at + s.entry.raster.down.to * (s.entry.raster.across.to * s.entry.raster.to_bytes)) × (out.new ≡ puts out.old at (raster_bytes s.entry.plane.now s.entry.raster)) }
{
    let mut table = [0; 4096];
    let n = PixelFormat::top_at(depths.old) as usize + 1;
    write_by(out, at, s, depths, &mut table[..n])
}
