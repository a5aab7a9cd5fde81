// The first record of a tray that a refusal is about.
ghost use Rattle.std.specs.Prelude.{◌≡◌};
ghost use Rattle.records.specs.inner.Frames.{frames_from};
ghost use Rattle.inputs.specs.inner.Sought.{found_at, is_sought};

use image::{Form, Part};

// What a record is looked for by: another depth than that, or alpha.
#[derive(Clone, Copy)]
pub enum Sought {
    OtherDepth(u32),
    Alpha,
}

#[tactic(auto, unfolding(crate::specs::inner::Sought::is_sought, image::specs::Format::has_part))]
fn is_sought(sought: Sought, form: Form) -> bool
    ensures { result ≡ is_sought sought form }
{
    let f = form.format;
    match sought {
        Sought::OtherDepth(depth) => f.depth != depth,
        Sought::Alpha => f.has(Part::Alpha),
    }
}

// The first of so many records in turn that is sought; the count where none is.
pub fn first_sought(tray: &[u8], first: usize, count: u32, sought: Sought) -> u32
    ensures { result ≡ found_at 0 (λ fr. is_sought sought fr.form) (frames_from count tray.now first) count }
{
    let mut at = first;
    for i in 0..count {
        match records::read_record(tray, at) {
            Err(_) => return count,
            Ok(fr) => {
                if is_sought(sought, fr.form) {
                    return i;
                }
                at = fr.end;
            }
        }
    }
    count
}
