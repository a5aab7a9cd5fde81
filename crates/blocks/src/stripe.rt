// Every input over a stripe of a block: those of the list, or, where more meet the block, those of the tray.
ghost use Rattle.std.specs.Prelude.{Some, ◌≡◌, true, ℕ, ◌+◌, ◌*◌, ◌<◌, ◌≤◌, ◌^◌, length, get_or};
ghost use Rattle.derived.specs.inner.Sound.{OverlaySound};
ghost use Rattle.records.specs.inner.Frames.{frames_from};
ghost use Rattle.inputs.specs.Layers.{layers_of};
ghost use Rattle.blend.specs.Overlay.{over_all};
ghost use Rattle.blend.specs.inner.Stripe.{across_at, down_at, Held, StripeFits};
ghost use Rattle.blocks.specs.inner.Listed.{AllMissed, Listed, Whole, missed, over_entry};

use crate::list::Entry;
use blend::{Stripe, over_input, over_inputs};
use derived::OverlayDescriptor;
use image::Part;

// Whether the input of an entry lies beside a stripe.
#[tactic(auto, unfolding(crate::specs::inner::Listed::missed))]
fn misses(entries: &[Entry], k: usize, start: usize, count: usize) -> bool
    requires { (k < length entries.now) × (start + count ≤ 2 ^ 30) }
    ensures { result ≡ missed entries.now k start count }
{
    let hull = entries[k].hull;
    hull.from >= start + count || hull.to <= start
}

// Whether the inputs of a block are listed, so many of them, and all lie beside a stripe.
pub fn is_clear(entries: &[Entry], inputs: Option<usize>, start: usize, count: usize) -> bool
    requires { ((n : ℕ) → inputs ≡ Some n → n ≤ length entries.now) × (start + count ≤ 2 ^ 30) }
    ensures { result ≡ true → AllMissed entries.now inputs start count }
{
    let Some(n) = inputs else {
        return false;
    };
    for k in 0..n {
        if !misses(entries, k, start, count) {
            return false;
        }
    }
    true
}

// The input of an entry.
fn over_entry(
    acc: &mut [u32],
    entries: &[Entry],
    n: usize,
    k: usize,
    body: &[u8],
    tray: &[u8],
    premultiplied: &[u8],
    d: OverlayDescriptor,
    first: usize,
    part: Part,
    top: u16,
    run: Stripe,
)
    requires { OverlaySound body.now d × (length premultiplied.now ≡ d.count) × (1 ≤ top) × StripeFits run × (run.count ≤ length acc.old) × Whole run
        × Listed body.now tray.now d first run.columns run.start run.count entries.now n × Held top acc.old run.count × (k < n) }
    ensures { (j : ℕ) → j < run.count → get_or acc.new j 0
        ≡ over_entry body.now tray.now premultiplied.now d entries.now top part (across_at run j) (down_at run j) k (get_or acc.old j 0) }
{
    if misses(entries, k, run.start, run.count) {
        return;
    }
    let e = entries[k];
    match records::read_record(tray, e.at) {
        Err(_) => (),
        Ok(fr) => {
            let place = d.offset(body, e.number);
            let multiplied = premultiplied[e.number as usize] != 0;
            over_input(acc, tray, fr, place, multiplied, part, top, run);
        }
    }
}

// The inputs of the list, in its order.
fn over_list(
    acc: &mut [u32],
    entries: &[Entry],
    n: usize,
    body: &[u8],
    tray: &[u8],
    premultiplied: &[u8],
    d: OverlayDescriptor,
    first: usize,
    part: Part,
    top: u16,
    run: Stripe,
)
    requires { OverlaySound body.now d × (length premultiplied.now ≡ d.count) × (1 ≤ top) × StripeFits run × (run.count ≤ length acc.old) × Whole run
        × Listed body.now tray.now d first run.columns run.start run.count entries.now n × Held top acc.old run.count }
    ensures { (j : ℕ) → j < run.count → get_or acc.new j 0
        ≡ over_all top part (across_at run j) (down_at run j) (layers_of body.now tray.now premultiplied.now d 0 (frames_from d.count tray.now first)) (get_or acc.old j 0) }
{
    for k in 0..n {
        over_entry(
            acc,
            entries,
            n,
            k,
            body,
            tray,
            premultiplied,
            d,
            first,
            part,
            top,
            run,
        );
    }
}

// Every input of the tray: through the list, or, where those that meet the block are not listed, one record after the other.
pub fn over_stripe(
    acc: &mut [u32],
    entries: &[Entry],
    inputs: Option<usize>,
    body: &[u8],
    tray: &[u8],
    premultiplied: &[u8],
    d: OverlayDescriptor,
    first: usize,
    part: Part,
    top: u16,
    run: Stripe,
)
    requires { OverlaySound body.now d × (length premultiplied.now ≡ d.count) × (1 ≤ top) × StripeFits run × (run.count ≤ length acc.old) × Whole run
        × ((n : ℕ) → inputs ≡ Some n → Listed body.now tray.now d first run.columns run.start run.count entries.now n) × Held top acc.old run.count }
    ensures { (j : ℕ) → j < run.count → get_or acc.new j 0
        ≡ over_all top part (across_at run j) (down_at run j) (layers_of body.now tray.now premultiplied.now d 0 (frames_from d.count tray.now first)) (get_or acc.old j 0) }
{
    if let Some(n) = inputs {
        over_list(
            acc,
            entries,
            n,
            body,
            tray,
            premultiplied,
            d,
            first,
            part,
            top,
            run,
        );
    } else {
        over_inputs(acc, body, tray, premultiplied, d, first, part, top, run);
    }
}
