// Planes of one sample, and a canvas of them.
ghost use Rattle.std.specs.Prelude.{◌≡◌, ◌+◌, ◌≤◌, length};
ghost use Rattle.laws.specs.Puts.{puts};
ghost use Rattle.planes.specs.Bytes.{head_bytes, plane_bytes, plane_size, size_of};
ghost use Rattle.image.specs.Sound.{FormSound};
ghost use Rattle.paste.specs.Stored.{headed};
ghost use Rattle.paste.specs.inner.Even.{by_part, even_pic, flat_pic};

use image::{Form, Part};

// A plane of one sample at `at`, if the picture has it, and the place past it.
pub fn paint_plane(out: &mut [u8], at: usize, form: Form, part: Part, v: u16) -> usize
    requires { FormSound form × (at + plane_size form part ≤ length out.old) }
    ensures { (result ≡ at + plane_size form part) × (out.new ≡ puts out.old at (plane_bytes (even_pic form v) part)) }
{
    let f = form.format;
    if f.has(part) {
        let a = planes::write_plane_head(out, at, form, part);
        let n = f.columns(form.width, part) * f.rows(form.height, part);
        planes::fill_row(out, a, f.bytes_per_sample(), v, n)
    } else {
        at
    }
}

// The record of a canvas at the start: a header that says that form, and planes of one sample each. Returns the place past it.
pub fn paint_canvas(
    out: &mut [u8],
    shown: Form,
    canvas: Form,
    y: u16,
    cb: u16,
    cr: u16,
    alpha: u16,
) -> usize
    requires { FormSound canvas × (length (head_bytes shown) ≡ length (head_bytes canvas)) × (size_of canvas ≤ length out.old) }
    ensures { (result ≡ size_of canvas) × (out.new ≡ puts out.old 0 (headed (head_bytes shown) (flat_pic canvas (by_part y cb cr alpha)))) }
{
    let a = planes::write_head(out, 0, shown);
    let b = paint_plane(out, a, canvas, Part::Luma, y);
    let c = paint_plane(out, b, canvas, Part::Cb, cb);
    let d = paint_plane(out, c, canvas, Part::Cr, cr);
    paint_plane(out, d, canvas, Part::Alpha, alpha)
}
