// The tiles of a grid's tray: read in turn, held to the first, with every refusal in document 01's order.
ghost use Rattle.std.specs.Prelude.{◌≡◌, ◌<◌, Ok, not};
ghost use Rattle.laws.specs.Out.{about, and_then, refuse};
ghost use Rattle.laws.specs.declared.Item.TheVariants.{Record};
ghost use Rattle.laws.specs.Pick.{pick};
ghost use Rattle.image.specs.Format.{has_alpha};
ghost use Rattle.records.specs.Tray.{frames_at};
ghost use Rattle.tiles.specs.Tiles.{promotes_of, canvas_form, spans_canvas, same_layout, held_to, judge_of, tiles_of};

use cells::tile_form;
use derived::GridDescriptor;
use image::Form;
use laws::{Item, Refusal};

// A grid that was taken: its descriptor, the first tile's form, 1 if a tile has alpha, and where the first record begins.
#[derive(Clone, Copy)]
pub struct Tiles {
    pub desc: GridDescriptor,
    pub tile: Form,
    pub alpha: u32,
    pub first: usize,
}

// Whether everything is promoted to 4:4:4.
#[tactic(auto, unfolding(crate::specs::Tiles::promotes_of))]
pub fn promotes(g: GridDescriptor, t: Form) -> bool
    ensures { result ≡ promotes_of g t }
{
    let f = t.format;
    f.needs_444(image::is_odd(t.width), image::is_odd(t.height))
        || f.needs_444(
            image::is_odd(g.output_width),
            image::is_odd(g.output_height),
        )
}

// The canvas's form, with that alpha number.
#[tactic(auto, unfolding(crate::specs::Tiles::canvas_form))]
pub fn canvas_form(g: GridDescriptor, t: Form, alpha: u32) -> Form
    ensures { result ≡ canvas_form g t alpha }
{
    let m = t.sized(g.output_width, g.output_height);
    tile_form(promotes(g, t), m).with_alpha(alpha)
}

// Whether tiles of that size cover the canvas.
#[tactic(auto, unfolding(crate::specs::Tiles::spans_canvas))]
pub fn spans_canvas(g: GridDescriptor, t: Form) -> bool
    ensures { result ≡ spans_canvas g t }
{
    g.output_width as u64 <= t.width as u64 * g.columns as u64
        && g.output_height as u64 <= t.height as u64 * g.rows as u64
}

#[tactic(auto, unfolding(crate::specs::Tiles::same_layout))]
pub fn same_layout(t: Form, m: Form) -> bool
    ensures { result ≡ same_layout t m }
{
    m.format.chroma == t.format.chroma && m.format.depth == t.format.depth
}

// Whether a tile has alpha, or one before it.
#[tactic(auto, unfolding(image::specs::Format::has_alpha, laws::specs::Pick::pick))]
pub fn with_tile(alpha: u32, m: Form) -> u32
    ensures { result ≡ pick (has_alpha m.format) 1 alpha }
{
    if m.format.alpha == 0 { alpha } else { 1 }
}

// The alpha number before any tile. Refusal: 12 tiles of that size do not cover the canvas.
#[tactic(auto, unfolding(laws::specs::Out::refuse))]
fn begin(g: GridDescriptor, t: Form) -> Result<u32, Refusal>
    ensures { result ≡ refuse (not (spans_canvas g t)) 12 (Ok 0) }
{
    if spans_canvas(g, t) {
        Ok(0)
    } else {
        Err(Refusal::COVER)
    }
}

// A tile held to the first, and the alpha number with it. Refusals: 13 another size, 14 another chroma or depth.
#[tactic(auto, unfolding(crate::specs::Tiles::held_to, laws::specs::Out::refuse))]
fn held_to(t: Form, alpha: u32, m: Form) -> Result<u32, Refusal>
    ensures { result ≡ held_to t alpha m }
{
    if !m.has_size(t.width, t.height) {
        return Err(Refusal::TILE);
    }
    if !same_layout(t, m) {
        return Err(Refusal::LAYOUT);
    }
    Ok(with_tile(alpha, m))
}

// The same of tile i, unless there was a refusal before.
#[tactic(auto, unfolding(laws::specs::Out::and_then, laws::specs::Out::about))]
fn hold(before: Result<u32, Refusal>, t: Form, m: Form, i: u32) -> Result<u32, Refusal>
    ensures { result ≡ and_then before (λ a. about Record i (held_to t a m)) }
{
    held_to(t, before?, m).map_err(|e| e.about(Item::Record(i as u64)))
}

// So many tiles from a place on, each held to the first of them. What is wrong with one is told after all records were read.
fn judge_tiles(tray: &[u8], g: GridDescriptor, at: usize, count: u32) -> Result<Tiles, Refusal>
    requires { 0 < count }
    ensures { result ≡ and_then (frames_at count tray.now at) (judge_of g at) }
{
    let tile = match records::read_record(tray, at) {
        Err(e) => return Err(e.about(Item::Record(0))),
        Ok(first) => first.form,
    };
    let mut held = begin(g, tile);
    let mut next = at;
    for i in 0..count {
        match records::read_record(tray, next) {
            Err(e) => return Err(e.about(Item::Record(i as u64))),
            Ok(f) => {
                held = hold(held, tile, f.form, i);
                next = f.end;
            }
        }
    }
    if next < tray.len() {
        return Err(Refusal::MALFORMED);
    }
    let alpha = held?;
    Ok(Tiles {
        desc: g,
        tile,
        alpha,
        first: at,
    })
}

// The tiles of a body and a tray. Refusals: 5 tray count unreadable; the body's; 11; the records'; 12; 13 and 14. A record's own refusal
// has its index, and so have 13 and 14.
#[tactic(auto, unfolding(crate::specs::Tiles::tiles_of, crate::specs::Tiles::tiles_at, crate::specs::Tiles::count_of, numbers::specs::Number::on_number, laws::specs::Out::and_then, laws::specs::Out::refuse))]
pub fn read_tiles(body: &[u8], tray: &[u8]) -> Result<Tiles, Refusal>
    ensures { result ≡ tiles_of body.now tray.now }
{
    let (count, at) = numbers::read_number(tray, 0)?;
    let g = GridDescriptor::parse(body)?;
    if count as u64 != g.rows as u64 * g.columns as u64 {
        return Err(Refusal::COUNT);
    }
    judge_tiles(tray, g, at, count)
}
