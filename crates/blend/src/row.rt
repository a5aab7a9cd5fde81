// A row of an input that stands sample for sample, laid over a stripe (document 01, Overlay): each loop is compiled for one byte and for
// two, in arithmetic that the compiler does for several samples at a time.
ghost use Rattle.std.specs.Prelude.{◌≡◌, ◌+◌, ◌*◌, ◌/◌, ◌≤◌, ◌<◌, ◌^◌, min, length};
ghost use Rattle.planes.specs.Bytes.{sample_in};
ghost use Rattle.image.specs.Format.{top_at};
ghost use Rattle.blend.specs.Overlay.{over_colour, over_alpha};
ghost use Rattle.blend.specs.inner.Row.{DepthTop, bytes_at, RowInside, RowLaid, StripeHolds};

// ---- one byte

// Colour times opacity under an input's sample m of alpha a, at depth 8.
fn byte_colour(m: u16, a: u16, premultiplied: bool, v: u32) -> u32
    requires { (m ≤ 255) × (a ≤ 255) × (v ≤ 65025) }
    ensures { result ≡ over_colour 255 m a premultiplied v }
{
    let m = m as u32;
    let a = a as u32;
    let under = (v * (255 - a) + 127) / 255;
    if premultiplied {
        (m * 255 + under).min(65025)
    } else {
        (m * a + under).min(65025)
    }
}

// Opacity under an input's alpha a, at depth 8.
fn byte_opacity(a: u16, v: u32) -> u32
    requires { (a ≤ 255) × (v ≤ 65025) }
    ensures { result ≡ over_alpha 255 a v }
{
    let a = a as u32;
    (a + (v * (255 - a) + 127) / 255).min(255)
}

// ---- two bytes

// x / (2^d - 1) by shifts: x is h * (2^d - 1) + y, where h is x / 2^d, and (y + 1 + y / 2^d) / 2^d is y / (2^d - 1).
pub(crate) fn by_top(x: usize, d: u32) -> usize
    requires { (1 ≤ d) × (d ≤ 16) × (x < top_at d * top_at d * 2 ^ d) }
    ensures { result ≡ x / top_at d }
{
    let h = x >> d;
    let y = x - (h << d) + h;
    h + ((y + 1 + (y >> d)) >> d)
}

// Colour times opacity under an input's sample m of alpha a, at a depth d.
fn pair_colour(m: u16, a: u16, premultiplied: bool, v: u32, d: u32, top: u16) -> u32
    requires { DepthTop d top × (v ≤ top * top) }
    ensures { result ≡ over_colour top m a premultiplied v }
{
    let t = top as usize;
    let m = m as usize;
    let a = a as usize;
    let under = by_top(v as usize * t.saturating_sub(a) + t / 2, d);
    if premultiplied {
        (m * t + under).min(t * t) as u32
    } else {
        (m * a + under).min(t * t) as u32
    }
}

// Opacity under an input's alpha a, at a depth d.
fn pair_opacity(a: u16, v: u32, d: u32, top: u16) -> u32
    requires { DepthTop d top × (v ≤ top * top) }
    ensures { result ≡ over_alpha top a v }
{
    let t = top as usize;
    let a = a as usize;
    let under = by_top(v as usize * t.saturating_sub(a) + t / 2, d);
    (a + under).min(t) as u32
}

// ---- either

// Colour times opacity under an input's sample m of alpha a, of so many bytes.
fn sample_colour<const BYTES: usize>(
    m: u16,
    a: u16,
    premultiplied: bool,
    v: u32,
    d: u32,
    top: u16,
) -> u32
    requires { DepthTop d top × (8 ≤ d) × (BYTES ≡ bytes_at d) × (m < 256 ^ BYTES) × (a < 256 ^ BYTES) × (v ≤ top * top) }
    ensures { result ≡ over_colour top m a premultiplied v }
{
    if BYTES == 1 {
        byte_colour(m, a, premultiplied, v)
    } else {
        pair_colour(m, a, premultiplied, v, d, top)
    }
}

// The same for opacity.
fn sample_opacity<const BYTES: usize>(a: u16, v: u32, d: u32, top: u16) -> u32
    requires { DepthTop d top × (8 ≤ d) × (BYTES ≡ bytes_at d) × (a < 256 ^ BYTES) × (v ≤ top * top) }
    ensures { result ≡ over_alpha top a v }
{
    if BYTES == 1 {
        byte_opacity(a, v)
    } else {
        pair_opacity(a, v, d, top)
    }
}

// Lays a row of an input with alpha over the n samples of a colour plane from k on.
pub(crate) fn colour_row<const BYTES: usize>(
    acc: &mut [u32],
    k: usize,
    n: usize,
    plane: &[u8],
    stride: usize,
    alpha: &[u8],
    alpha_stride: usize,
    premultiplied: bool,
    x: usize,
    y: usize,
    d: u32,
    top: u16,
)
    requires { StripeHolds top acc.old k n × RowInside plane.now BYTES stride x y n × RowInside alpha.now BYTES alpha_stride x y n × DepthTop d top × (8 ≤ d) × (BYTES ≡ bytes_at d) }
    ensures { RowLaid acc.old acc.new k n
        (λ i v. over_colour top (sample_in plane.now BYTES stride (x + i) y) (sample_in alpha.now BYTES alpha_stride (x + i) y) premultiplied v) }
{
    for i in 0..n {
        let m = planes::sample(plane, BYTES, stride, x + i, y);
        let a = planes::sample(alpha, BYTES, alpha_stride, x + i, y);
        let at = k + i;
        acc[at] = sample_colour::<BYTES>(m, a, premultiplied, acc[at], d, top);
    }
}

// The same for opacity.
pub(crate) fn opacity_row<const BYTES: usize>(
    acc: &mut [u32],
    k: usize,
    n: usize,
    alpha: &[u8],
    stride: usize,
    x: usize,
    y: usize,
    d: u32,
    top: u16,
)
    requires { StripeHolds top acc.old k n × RowInside alpha.now BYTES stride x y n × DepthTop d top × (8 ≤ d) × (BYTES ≡ bytes_at d) }
    ensures { RowLaid acc.old acc.new k n (λ i v. over_alpha top (sample_in alpha.now BYTES stride (x + i) y) v) }
{
    for i in 0..n {
        let a = planes::sample(alpha, BYTES, stride, x + i, y);
        let at = k + i;
        acc[at] = sample_opacity::<BYTES>(a, acc[at], d, top);
    }
}

// Lays a row of an input without alpha over the n samples of a colour plane from k on.
pub(crate) fn opaque_row<const BYTES: usize>(
    acc: &mut [u32],
    k: usize,
    n: usize,
    plane: &[u8],
    stride: usize,
    x: usize,
    y: usize,
    top: u16,
)
    requires { (k + n ≤ length acc.old) × RowInside plane.now BYTES stride x y n × (1 ≤ BYTES) × (BYTES ≤ 2) }
    ensures { RowLaid acc.old acc.new k n (λ i v. min (sample_in plane.now BYTES stride (x + i) y * top) (top * top)) }
{
    let t = top as u32;
    let most = t * t;
    for i in 0..n {
        let m = planes::sample(plane, BYTES, stride, x + i, y) as u32;
        acc[k + i] = (m * t).min(most);
    }
}
