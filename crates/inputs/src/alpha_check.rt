// The search for an alpha sample above top.
ghost use Rattle.std.specs.Prelude.{◌≡◌};
ghost use Rattle.records.specs.Record.{record_at};
ghost use Rattle.laws.specs.Out.{refuse_item};
ghost use Rattle.laws.specs.declared.Item.TheVariants.{Record};
ghost use Rattle.inputs.specs.Inputs.{alpha_above};
ghost use Rattle.records.specs.inner.Frames.{frames_from};
ghost use Rattle.inputs.specs.inner.Sought.{found_at};
ghost use Rattle.inputs.specs.inner.Summary.{no_alpha, alpha_plane_at, searched_rows};

use image::Part;
use laws::{Item, Refusal};
use records::Plane;

// A record's alpha plane and the place past the record. Where there is no alpha, or no record, it has no rows.
#[derive(Clone, Copy)]
pub(crate) struct AlphaPlane {
    plane: Plane,
    bytes: usize,
    columns: usize,
    rows: usize,
    end: usize,
}

#[tactic(auto, unfolding(crate::specs::inner::Summary::no_alpha))]
fn no_alpha(end: usize) -> AlphaPlane
    ensures { result ≡ no_alpha end }
{
    AlphaPlane {
        plane: Plane {
            start: 0,
            len: 0,
            stride: 0,
        },
        bytes: 1,
        columns: 0,
        rows: 0,
        end,
    }
}

fn alpha_at(tray: &[u8], at: usize) -> AlphaPlane
    ensures { result ≡ alpha_plane_at at (record_at tray.now at) }
{
    match records::read_record(tray, at) {
        Err(_) => no_alpha(at),
        Ok(fr) => {
            let form = fr.form;
            if !form.format.has(Part::Alpha) {
                return no_alpha(fr.end);
            }
            AlphaPlane {
                plane: fr.alpha,
                bytes: form.format.bytes_per_sample(),
                columns: form.width as usize,
                rows: form.height as usize,
                end: fr.end,
            }
        }
    }
}

// How many of a plane's rows are searched: none where samples of so many bytes cannot exceed top.
#[tactic(auto, unfolding(crate::specs::inner::Summary::searched_rows, laws::specs::Pick::pick))]
fn searched_rows(rows: usize, bytes: usize, top: u16) -> usize
    ensures { result ≡ searched_rows rows bytes top }
{
    let full = if bytes == 1 { top >= 255 } else { top == 65535 };
    if full { 0 } else { rows }
}

// The first of so many records in turn that has an alpha sample above top, drawn or cut off; the count where none has. All loops are
// left on the first found.
fn alpha_above(tray: &[u8], first: usize, count: u32, top: u16) -> u32
    ensures { result ≡ found_at 0 (alpha_above tray.now top) (frames_from count tray.now first) count }
{
    let mut found = count;
    let mut at = first;
    'search: for i in 0..count {
        let q = alpha_at(tray, at);
        let bytes = q.bytes;
        let stride = q.plane.stride;
        let plane = planes::plane_data(tray, q.plane);
        let columns = q.columns;
        for y in 0..searched_rows(q.rows, bytes, top) {
            for x in 0..columns {
                if planes::sample(plane, bytes, stride, x, y) > top {
                    found = i;
                    break 'search;
                }
            }
        }
        at = q.end;
    }
    found
}

// Holds every alpha sample of so many records in turn to top. Refusal: 16, of the first record that has one above.
pub fn check_alpha(tray: &[u8], first: usize, count: u32, top: u16) -> Result<(), Refusal>
    ensures { result ≡ refuse_item Record (alpha_above tray.now top) 16 (frames_from count tray.now first) (Ok tt) }
{
    let above = alpha_above(tray, first, count, top);
    if above < count {
        return Err(Refusal::OPACITY.about(Item::Record(above as u64)));
    }
    Ok(())
}
