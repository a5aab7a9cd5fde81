// A canvas before its tiles: its header, and each plane of one sample.
ghost use Rattle.std.specs.Prelude.{◌≡◌, ◌+◌, ◌≤◌, ℕ, length};
ghost use Rattle.laws.specs.Puts.{puts};
ghost use Rattle.planes.specs.Bytes.{encode, plane_bytes, plane_size, size_of};
ghost use Rattle.image.specs.Sound.{FormSound};
ghost use Rattle.image.specs.declared.format.Part.{Part};
ghost use Rattle.grid.specs.Mosaic.{canvas_bytes};
ghost use Rattle.grid.specs.inner.Stored.{any_pic, under_pic};

use image::{Form, Part};

// The canvas: samples 0, alpha at top, and a header that says that alpha number.
pub fn paint_canvas(out: &mut [u8], canvas: Form, shown: u32)
    requires { FormSound canvas × (shown ≤ 1) × (size_of canvas ≤ length out.old) }
    ensures { out.new ≡ puts out.old 0 (canvas_bytes canvas shown) }
{
    let f = canvas.format;
    paste::paint_canvas(out, canvas.with_alpha(shown), canvas, 0, 0, 0, f.top());
}

// A plane's numbers at `at`, if the picture has it, and the place past its samples, which stay as they are.
fn outline_plane(out: &mut [u8], at: usize, form: Form, part: Part) -> usize
    requires { FormSound form × (at + plane_size form part ≤ length out.old) }
    ensures { (result ≡ at + plane_size form part) × ((f : ℕ → ℕ → ℕ) × (out.new ≡ puts out.old at (plane_bytes (any_pic form f) part))) }
{
    let f = form.format;
    if f.has(part) {
        let a = planes::write_plane_head(out, at, form, part);
        a + form.plane_len(part) as usize
    } else {
        at
    }
}

// A canvas that its tiles will cover: its numbers, and alpha at top. Colour stays as it is there.
pub(crate) fn outline_canvas(out: &mut [u8], canvas: Form)
    requires { FormSound canvas × (size_of canvas ≤ length out.old) }
    ensures { (u : Part → ℕ → ℕ → ℕ) × (out.new ≡ puts out.old 0 (encode (under_pic canvas u))) }
{
    let f = canvas.format;
    let a = planes::write_head(out, 0, canvas);
    let b = outline_plane(out, a, canvas, Part::Luma);
    let c = outline_plane(out, b, canvas, Part::Cb);
    let d = outline_plane(out, c, canvas, Part::Cr);
    paste::paint_plane(out, d, canvas, Part::Alpha, f.top());
}
