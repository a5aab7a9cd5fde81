// The columns of a plane written as rows, block by block, so that the lines of memory that a block is read from and written to stay
// in the processor's cache.
ghost use Rattle.std.specs.Prelude.{◌≡◌, ◌+◌, ◌*◌, ◌≤◌, length};
ghost use Rattle.laws.specs.Puts.{puts};
ghost use Rattle.laws.specs.Span.{span};
ghost use Rattle.paste.specs.Stored.{store_rows};
ghost use Rattle.turns.specs.inner.Course.{BlockFits, CourseFits, course_row};

use crate::steps::write_steps;

// Where a turned plane's samples stand: the first, how many bytes to the right or left of a row's first sample that of the next row
// is, and how many below or above a sample the next one of its row is.
#[derive(Clone, Copy)]
pub struct Course {
    pub from: usize,
    pub right: usize,
    pub left: usize,
    pub down: usize,
    pub up: usize,
}

// Writes n samples of so many rows, `pitch` bytes from row to row.
fn turn_block<const BYTES: usize>(
    out: &mut [u8],
    at: usize,
    pitch: usize,
    plane: &[u8],
    c: Course,
    rows: usize,
    n: usize,
)
    requires { CourseFits plane.now BYTES c n rows × BlockFits (length out.old) at pitch rows (n * BYTES) }
    ensures { out.new ≡ store_rows out.old at pitch (course_row plane.now BYTES c n) rows }
{
    for y in 0..rows {
        let j = c.from + y * c.right - y * c.left;
        write_steps::<BYTES>(out, at + y * pitch, plane, j, c.down, c.up, n);
    }
}

// Writes so many whole rows at `at`, 16 columns at a time, and returns the place past them.
fn turn_band<const BYTES: usize>(
    out: &mut [u8],
    at: usize,
    plane: &[u8],
    c: Course,
    columns: usize,
    rows: usize,
) -> usize
    requires { CourseFits plane.now BYTES c columns rows × (at + rows * (columns * BYTES) ≤ length out.old) × (1 ≤ rows) }
    ensures { (result ≡ at + rows * (columns * BYTES)) × (out.new ≡ puts out.old at (span (course_row plane.now BYTES c columns) 0 rows)) }
{
    let pitch = columns * BYTES;
    let mut k: usize = 0;
    while k < columns {
        let n = (columns - k).min(16);
        let block = Course {
            from: c.from + k * c.down - k * c.up,
            ..c
        };
        turn_block::<BYTES>(out, at + k * BYTES, pitch, plane, block, rows, n);
        k += n;
    }
    at + rows * pitch
}

// Writes the rows of a turned plane at `at`, 64 at a time, and returns the place past them.
fn turn_bands<const BYTES: usize>(
    out: &mut [u8],
    at: usize,
    plane: &[u8],
    c: Course,
    columns: usize,
    rows: usize,
) -> usize
    requires { CourseFits plane.now BYTES c columns rows × (at + rows * (columns * BYTES) ≤ length out.old) }
    ensures { (result ≡ at + rows * (columns * BYTES)) × (out.new ≡ puts out.old at (span (course_row plane.now BYTES c columns) 0 rows)) }
{
    let mut i = at;
    let mut y: usize = 0;
    while y < rows {
        let n = (rows - y).min(64);
        let band = Course {
            from: c.from + y * c.right - y * c.left,
            ..c
        };
        i = turn_band::<BYTES>(out, i, plane, band, columns, n);
        y += n;
    }
    i
}

// Writes the rows of a turned plane at `at`, and returns the place past them. Chosen once a plane: the loops are compiled for one
// byte and for two.
pub fn turn_rows(
    out: &mut [u8],
    at: usize,
    plane: &[u8],
    bytes: usize,
    c: Course,
    columns: usize,
    rows: usize,
) -> usize
    requires { CourseFits plane.now bytes c columns rows × (at + rows * (columns * bytes) ≤ length out.old) }
    ensures { (result ≡ at + rows * (columns * bytes)) × (out.new ≡ puts out.old at (span (course_row plane.now bytes c columns) 0 rows)) }
{
    if bytes == 1 {
        turn_bands::<1>(out, at, plane, c, columns, rows)
    } else {
        turn_bands::<2>(out, at, plane, c, columns, rows)
    }
}
