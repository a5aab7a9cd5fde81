// A plane of depth 10 at depth 8, by a constant table (document 02, A3).
#![tactic(auto)]

ghost use Rattle.std.specs.Prelude.{◌≡◌, ◌+◌, ◌*◌, ◌<◌, ◌≤◌, length};
ghost use Rattle.laws.specs.Puts.{puts};
ghost use Rattle.sampling.specs.Depth.{level_of};
ghost use Rattle.sampling.specs.declared.raster.Rule.{Rule};
ghost use Rattle.sampling.specs.inner.Redraw.{raster_bytes, raster_row};
ghost use Rattle.ten_to_eight.specs.inner.Table.{Table, eight_row, ten_to_eight_of};

use sampling::Source;

mod table;

// What a sample becomes: its entry. A sample above 1,023 has the last entry, 255.
fn look_up(table: &[u8], v: u16) -> u16
    requires { Table table.now }
    ensures { result ≡ level_of 10 8 v }
{
    table[(v as usize).min(1023)] as u16
}

// Writes the new row that row y becomes, and returns the place past it.
fn write_row(out: &mut [u8], at: usize, s: Source<'_>, y: usize, table: &[u8]) -> usize
    requires { (y < s.raster.down.from) × Table table.now × (at + s.raster.across.to * s.raster.to_bytes ≤ length out.old) }
    ensures { (result ≡ at + s.entry.raster.across.to * s.entry.raster.to_bytes) × (out.new ≡ puts out.old at (raster_row s.entry.plane.now s.entry.raster (eight_row y))) }
{
    let mut i = at;
    for x in 0..s.raster.across.to {
        let u = sampling::nearest_place(s.raster.across, x);
        let v = look_up(
            table,
            planes::sample(s.plane, s.raster.bytes, s.raster.stride, u, y),
        );
        i = planes::put_sample(out, i, s.raster.to_bytes, v);
    }
    i
}

// Writes the new rows by a table, and returns the place past them.
fn write_by(out: &mut [u8], at: usize, s: Source<'_>, table: &[u8]) -> usize
    requires { (s.raster.rule ≡ Rule.Near ten_to_eight_of) × Table table.now × (at + s.raster.down.to * (s.raster.across.to * s.raster.to_bytes) ≤ length out.old) }
    ensures { (result ≡ at + s.entry.raster.down.to * (s.entry.raster.across.to * s.entry.raster.to_bytes)) × (out.new ≡ puts out.old at (raster_bytes s.entry.plane.now s.entry.raster)) }
{
    let mut i = at;
    for y in 0..s.raster.down.to {
        i = write_row(out, i, s, sampling::nearest_place(s.raster.down, y), table);
    }
    i
}

// Writes the rows of a plane that goes from depth 10 to 8, and returns the place past them. The table is handed on once a plane.
pub fn write_rows(out: &mut [u8], at: usize, s: Source<'_>) -> usize
    requires { (s.raster.rule ≡ Rule.Near ten_to_eight_of) × (at + s.raster.down.to * (s.raster.across.to * s.raster.to_bytes) ≤ length out.old) }
    ensures { (result ≡ at + s.entry.raster.down.to * (s.entry.raster.across.to * s.entry.raster.to_bytes)) × (out.new ≡ puts out.old at (raster_bytes s.entry.plane.now s.entry.raster)) }
{
    write_by(out, at, s, &crate::table::TEN_TO_EIGHT)
}
