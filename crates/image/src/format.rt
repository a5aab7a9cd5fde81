// The pixel format, and what it says of a picture's planes.
ghost use Rattle.std.specs.Prelude.{◌≡◌, ◌&&◌, ◌||◌, ◌*◌, ◌≤◌};
ghost use Rattle.image.specs.Format.{is_depth, top_at, top_of, middle_at, middle_of, bytes_of, has_part, plane_count, halves_x, halves_y, halved, half_x, half_y, side_of, rows_of, row_size, has_size, needs444, as444, odd, sized, with_alpha, format_of, form_of};
ghost use Rattle.image.specs.Sound.{FormSound};

use crate::size::Size;
use laws::Refusal;

// A plane by its part: where the picture is promoted, a mono picture's alpha keeps its part and not its number.
#[derive(Clone, Copy)]
pub enum Part {
    Luma,
    Cb,
    Cr,
    Alpha,
}

// Chroma 0 mono, 1 4:2:0, 2 4:2:2, 3 4:4:4; bits a sample; alpha 0 where there is no alpha plane, 1 where there is one.
#[derive(Clone, Copy)]
pub struct PixelFormat {
    pub chroma: u32,
    pub depth: u32,
    pub alpha: u32,
}

// A picture's size and format: all that a record says but for its samples.
#[derive(Clone, Copy)]
pub struct Form {
    pub width: u32,
    pub height: u32,
    pub format: PixelFormat,
}

impl Part {
    // Whether a plane of the part is halved along an axis that is halved, or not, for chroma.
    #[tactic(auto, unfolding(crate::specs::Format::halved))]
    fn halved(self, chroma: bool) -> bool
        ensures { result ≡ halved chroma self }
    {
        match self {
            Part::Luma | Part::Alpha => false,
            Part::Cb | Part::Cr => chroma,
        }
    }
}

impl PixelFormat {
    pub const MONO: u32 = 0;

    pub const YUV420: u32 = 1;

    pub const YUV422: u32 = 2;

    pub const YUV444: u32 = 3;
    // The most pixels a picture may have (document 01's L).
    pub const PIXEL_LIMIT: u64 = 1073741824;

    #[tactic(auto, unfolding(crate::specs::Format::format_of, laws::specs::Out::refuse))]
    pub fn new(chroma: u32, depth: u32, alpha: u32) -> Result<PixelFormat, Refusal>
        ensures { result ≡ format_of chroma depth alpha }
    {
        if chroma > PixelFormat::YUV444 || alpha > 1 {
            return Err(Refusal::MALFORMED);
        }
        if !PixelFormat::is_depth(depth) {
            return Err(Refusal::DEPTH);
        }
        Ok(PixelFormat {
            chroma,
            depth,
            alpha,
        })
    }

    // Whether a record may have the depth.
    #[tactic(auto, unfolding(crate::specs::Format::is_depth))]
    pub fn is_depth(depth: u32) -> bool
        ensures { result ≡ is_depth depth }
    {
        8 <= depth && depth <= 16
    }

    // The largest sample of a depth.
    pub fn top_at(depth: u32) -> u16
        requires { depth ≤ 16 }
        ensures { result ≡ top_at depth }
    {
        ((1u32 << depth) - 1) as u16
    }

    #[tactic(auto, unfolding(crate::specs::Format::top_of))]
    pub fn top(self) -> u16
        requires { self.depth ≤ 16 }
        ensures { result ≡ top_of self }
    {
        PixelFormat::top_at(self.depth)
    }

    // The chroma sample of no colour, of a depth.
    pub fn middle_at(depth: u32) -> u16
        requires { (1 ≤ depth) × (depth ≤ 16) }
        ensures { result ≡ middle_at depth }
    {
        (1u32 << (depth - 1)) as u16
    }

    #[tactic(auto, unfolding(crate::specs::Format::middle_of))]
    pub fn middle(self) -> u16
        requires { (1 ≤ self.depth) × (self.depth ≤ 16) }
        ensures { result ≡ middle_of self }
    {
        PixelFormat::middle_at(self.depth)
    }

    #[tactic(auto, unfolding(crate::specs::Format::bytes_of, laws::specs::Pick::pick))]
    pub fn bytes_per_sample(self) -> usize
        ensures { result ≡ bytes_of self }
    {
        if self.depth <= 8 { 1 } else { 2 }
    }

    // Whether a picture has the plane.
    #[tactic(auto, unfolding(crate::specs::Format::has_part, crate::specs::Format::is_mono, crate::specs::Format::has_alpha))]
    pub fn has(self, part: Part) -> bool
        ensures { result ≡ has_part self part }
    {
        match part {
            Part::Luma => true,
            Part::Cb | Part::Cr => self.chroma != PixelFormat::MONO,
            Part::Alpha => self.alpha != 0,
        }
    }

    #[tactic(auto, unfolding(crate::specs::Format::plane_count, crate::specs::Format::is_mono, crate::specs::Format::has_alpha, laws::specs::Pick::pick))]
    pub fn plane_count(self) -> usize
        ensures { result ≡ plane_count self }
    {
        let colour = if self.chroma == PixelFormat::MONO {
            1
        } else {
            3
        };
        let alpha = if self.alpha == 0 { 0 } else { 1 };
        colour + alpha
    }

    // Whether chroma is halved along the width.
    #[tactic(auto, unfolding(crate::specs::Format::halves_x))]
    pub fn halves_width(self) -> bool
        ensures { result ≡ halves_x self }
    {
        self.chroma == PixelFormat::YUV420 || self.chroma == PixelFormat::YUV422
    }

    // Whether chroma is halved along the height.
    #[tactic(auto, unfolding(crate::specs::Format::halves_y))]
    pub fn halves_height(self) -> bool
        ensures { result ≡ halves_y self }
    {
        self.chroma == PixelFormat::YUV420
    }

    // Whether an odd column or row needs a chroma sample that is not there.
    #[tactic(auto, unfolding(crate::specs::Format::needs444))]
    pub fn needs_444(self, x_odd: bool, y_odd: bool) -> bool
        ensures { result ≡ needs444 self x_odd y_odd }
    {
        self.halves_width() && x_odd || self.halves_height() && y_odd
    }

    // Whether a plane is halved along the width.
    pub fn half_width(self, part: Part) -> bool
        ensures { result ≡ half_x self part }
    {
        part.halved(self.halves_width())
    }

    // Whether a plane is halved along the height.
    pub fn half_height(self, part: Part) -> bool
        ensures { result ≡ half_y self part }
    {
        part.halved(self.halves_height())
    }

    // The columns of a plane of a picture so wide.
    pub fn columns(self, width: u32, part: Part) -> usize
        ensures { result ≡ side_of (half_x self part) width }
    {
        along(self.half_width(part), width)
    }

    // The rows of a plane of a picture so high.
    pub fn rows(self, height: u32, part: Part) -> usize
        ensures { result ≡ side_of (half_y self part) height }
    {
        along(self.half_height(part), height)
    }
}

impl Form {
    // The form of those numbers. Refusals: 5 chroma above 3 or alpha above 1, 6 a depth outside 8 to 16, 3 a side 0, 4 above 2^30
    // pixels.
    #[tactic(auto, unfolding(crate::specs::Format::form_of, laws::specs::Out::and_then))]
    pub fn judge(
        width: u32,
        height: u32,
        chroma: u32,
        depth: u32,
        alpha: u32,
    ) -> Result<Form, Refusal>
        ensures { result ≡ form_of width height chroma depth alpha }
    {
        let format = PixelFormat::new(chroma, depth, alpha)?;
        let z = Size::judge(width, height)?;
        Ok(Form {
            width: z.width,
            height: z.height,
            format,
        })
    }

    // The form promoted to 4:4:4.
    #[tactic(auto, unfolding(crate::specs::Format::as444, crate::specs::Format::sized))]
    pub fn as_444(self) -> Form
        ensures { result ≡ as444 self }
    {
        let format = PixelFormat {
            chroma: PixelFormat::YUV444,
            ..self.format
        };
        Form { format, ..self }
    }

    // The form with another size.
    #[tactic(auto, unfolding(crate::specs::Format::as444, crate::specs::Format::sized))]
    pub fn sized(self, width: u32, height: u32) -> Form
        ensures { result ≡ sized self width height }
    {
        Form {
            width,
            height,
            ..self
        }
    }

    // The form with that alpha number.
    #[tactic(auto, unfolding(crate::specs::Format::with_alpha))]
    pub fn with_alpha(self, alpha: u32) -> Form
        ensures { result ≡ with_alpha self alpha }
    {
        let format = PixelFormat {
            alpha,
            ..self.format
        };
        Form { format, ..self }
    }

    // Whether the picture has that size.
    #[tactic(auto, unfolding(crate::specs::Format::has_size))]
    pub fn has_size(self, width: u32, height: u32) -> bool
        ensures { result ≡ has_size self width height }
    {
        self.width == width && self.height == height
    }

    // The bytes of a row of a plane.
    pub fn row_size(self, part: Part) -> u32
        requires { FormSound self }
        ensures { result ≡ row_size self part }
    {
        let f = self.format;
        (f.columns(self.width, part) * f.bytes_per_sample()) as u32
    }

    // The bytes of a tight plane.
    pub fn plane_len(self, part: Part) -> u32
        requires { FormSound self }
        ensures { result ≡ rows_of self part * row_size self part }
    {
        let row = self.row_size(part) as usize;
        let f = self.format;
        (f.rows(self.height, part) * row) as u32
    }
}

#[tactic(auto, unfolding(crate::specs::Format::odd))]
pub fn is_odd(n: u32) -> bool
    ensures { result ≡ odd n }
{
    n % 2 == 1
}

// How many samples stand along n pixels.
#[tactic(auto, unfolding(crate::specs::Format::side_of))]
fn along(half: bool, n: u32) -> usize
    ensures { result ≡ side_of half n }
{
    let whole = n as usize;
    if half { (whole + 1) / 2 } else { whole }
}
