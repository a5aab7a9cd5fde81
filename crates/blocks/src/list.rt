// The inputs that meet a block of the canvas, which is a run of its samples, row after row.
ghost use Rattle.std.specs.Prelude.{Some, ◌≡◌, ◌&&◌, ℕ, ◌+◌, ◌*◌, ◌<◌, ◌≤◌, ◌^◌, ltb, length};
ghost use Rattle.records.specs.Record.{record_at};
ghost use Rattle.derived.specs.inner.Sound.{OverlaySound};
ghost use Rattle.blocks.specs.inner.Listed.{Listed, Listing, hull_of};

use derived::{OverlayDescriptor, Placement};
use image::Form;
use opaque::{Stretch, reach};
use records::Frame;

// An input of the list: where its record stands, its number, and the samples of the canvas, counted row after row, between which it lies.
#[derive(Clone, Copy)]
pub struct Entry {
    pub at: usize,
    pub number: u32,
    pub hull: Stretch,
}

impl Entry {
    // No input, in a list that is to be filled.
    pub const NONE: Entry = Entry {
        at: 0,
        number: 0,
        hull: Stretch { from: 0, to: 0 },
    };
}

// The samples of the canvas between which an input lies.
fn hull_of(columns: usize, place: Placement, form: Form) -> Stretch
    requires { columns ≤ 2 ^ 30 }
    ensures { result ≡ hull_of columns place form }
{
    let across = reach(false, place.horizontal, form.width);
    let down = reach(false, place.vertical, form.height);
    Stretch {
        from: down.from * columns + across.from,
        to: down.to.saturating_sub(1) * columns + across.to.min(columns),
    }
}

fn meets(h: Stretch, start: usize, count: usize) -> bool
    requires { start + count ≤ 2 ^ 30 }
    ensures { result ≡ ltb h.from (start + count) && ltb start h.to }
{
    h.from < start + count && start < h.to
}

// The input i, whose record was read at a place, is listed if it meets the block. Returns how many are, None where they are more than 1,024.
fn list_input(
    entries: &mut [Entry],
    n: usize,
    body: &[u8],
    tray: &[u8],
    d: OverlayDescriptor,
    first: usize,
    columns: usize,
    start: usize,
    count: usize,
    i: u32,
    at: usize,
    fr: Frame,
) -> Option<usize>
    requires { OverlaySound body.now d × (columns ≤ 2 ^ 30) × (start + count ≤ 2 ^ 30) × (1024 ≤ length entries.old) × (n ≤ 1024) × (i < d.count)
        × (record_at tray.now at ≡ Ok fr) × Listing body.now tray.now d first columns start count entries.old n i at }
    ensures { (m : ℕ) → result ≡ Some m → (m ≤ 1024) × Listing body.now tray.now d first columns start count entries.new m (i + 1) fr.end }
{
    let hull = hull_of(columns, d.offset(body, i), fr.form);
    if !meets(hull, start, count) {
        return Some(n);
    }
    if n == 1024 {
        return None;
    }
    entries[n] = Entry {
        at,
        number: i,
        hull,
    };
    Some(n + 1)
}

// Lists the inputs that meet a block, and returns how many; None where they are more than 1,024.
fn list_inputs(
    entries: &mut [Entry],
    body: &[u8],
    tray: &[u8],
    d: OverlayDescriptor,
    first: usize,
    columns: usize,
    start: usize,
    count: usize,
) -> Option<usize>
    requires { OverlaySound body.now d × (columns ≤ 2 ^ 30) × (start + count ≤ 2 ^ 30) × (1024 ≤ length entries.old) }
    ensures { (m : ℕ) → result ≡ Some m → (m ≤ 1024) × Listed body.now tray.now d first columns start count entries.new m }
{
    let mut at = first;
    let mut n: usize = 0;
    for i in 0..d.count {
        match records::read_record(tray, at) {
            Err(_) => return Some(n),
            Ok(fr) => {
                n = list_input(
                    entries, n, body, tray, d, first, columns, start, count, i, at, fr,
                )?;
                at = fr.end;
            }
        }
    }
    Some(n)
}

// A block: so many samples, which so many inputs meet; None where these are more than 1,024, which are not listed.
#[derive(Clone, Copy)]
pub struct Block {
    pub count: usize,
    pub inputs: Option<usize>,
}

// A block of so many samples, made shorter by a quarter until at most 1,024 inputs meet it, or until it has at most 1,024 samples.
pub fn fit_block(
    entries: &mut [Entry],
    body: &[u8],
    tray: &[u8],
    d: OverlayDescriptor,
    first: usize,
    columns: usize,
    start: usize,
    most: usize,
) -> Block
    requires { OverlaySound body.now d × (columns ≤ 2 ^ 30) × (start + most ≤ 2 ^ 30) × (1 ≤ most) × (1024 ≤ length entries.old) }
    ensures { (1 ≤ result.count) × (result.count ≤ most)
        × ((m : ℕ) → result.inputs ≡ Some m → (m ≤ 1024) × Listed body.now tray.now d first columns start result.count entries.new m) }
{
    let mut count = most;
    let mut inputs = list_inputs(entries, body, tray, d, first, columns, start, count);
    while inputs.is_none() && count > 1024 {
        count = count - count / 4;
        inputs = list_inputs(entries, body, tray, d, first, columns, start, count);
    }
    Block { count, inputs }
}
