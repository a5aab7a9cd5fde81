// A canvas's state, and which states calls can have made.
ghost use Rattle.std.specs.Prelude.{◌≡◌, true, ◌<◌};
ghost use Rattle.laws.specs.Out.{is_done};
ghost use Rattle.image.specs.Format.{judged_size};
ghost use Rattle.records.specs.Tray.{no_form};
ghost use Rattle.session.specs.Marks.{mark_of};
ghost use Rattle.session.specs.State.{grid_ok, form_ok, open_of, bare_ok, tiled_ok, state_ok, has_tile, accept_of};

use crate::marks::{any_marked, none_beyond};
use derived::GridDescriptor;
use image::{Form, PixelFormat, Size};
use laws::Refusal;

// The grid, the first tile's form (all 0 before a tile), 1 if a tile had alpha, and a mark for each cell, one bit a cell.
#[derive(Clone, Copy)]
pub struct Canvas {
    pub desc: GridDescriptor,
    pub tile: Form,
    pub alpha: u32,
    pub marks: [u64; 1024],
}

fn size_ok(width: u32, height: u32) -> bool
    ensures { result ≡ is_done (judged_size width height) }
{
    Size::judge(width, height).is_ok()
}

// A descriptor that a body can have.
#[tactic(auto, unfolding(crate::specs::State::grid_ok))]
fn grid_ok(g: GridDescriptor) -> bool
    ensures { result ≡ grid_ok g }
{
    1 <= g.rows
        && g.rows <= 256
        && 1 <= g.columns
        && g.columns <= 256
        && size_ok(g.output_width, g.output_height)
}

// A form that a record can have.
fn form_ok(m: Form) -> bool
    ensures { result ≡ form_ok m }
{
    let f = m.format;
    Form::judge(m.width, m.height, f.chroma, f.depth, f.alpha).is_ok()
}

fn no_form() -> Form
    ensures { result ≡ no_form }
{
    Form {
        width: 0,
        height: 0,
        format: PixelFormat {
            chroma: 0,
            depth: 0,
            alpha: 0,
        },
    }
}

impl Canvas {
    // A canvas on which nothing is placed.
    pub(crate) fn open(desc: GridDescriptor) -> Canvas
        ensures { result ≡ open_of desc }
    {
        let tile = no_form();
        Canvas {
            desc,
            tile,
            alpha: 0,
            marks: [0u64; 1024],
        }
    }

    // Before a tile: no form, no alpha, no mark.
    #[tactic(auto, unfolding(crate::specs::State::bare_ok))]
    fn bare_ok(self) -> bool
        ensures { result ≡ bare_ok self }
    {
        let t = self.tile;
        let f = t.format;
        t.height == 0
            && f.chroma == 0
            && f.depth == 0
            && f.alpha == 0
            && self.alpha == 0
            && !any_marked(&self.marks)
    }

    // With a tile: its form is sound and covers the canvas, alpha is at least its own, some cell is marked and none beyond the grid.
    #[tactic(auto, unfolding(crate::specs::State::tiled_ok, tiles::specs::Tiles::count_of))]
    fn tiled_ok(self) -> bool
        requires { grid_ok self.desc ≡ true }
        ensures { result ≡ tiled_ok self }
    {
        let g = self.desc;
        let t = self.tile;
        let f = t.format;
        form_ok(t)
            && tiles::spans_canvas(g, t)
            && self.alpha <= 1
            && f.alpha <= self.alpha
            && none_beyond(&self.marks, g.rows * g.columns)
            && any_marked(&self.marks)
    }

    // Whether calls can have made the state.
    #[tactic(auto, unfolding(crate::specs::State::state_ok, laws::specs::Pick::pick))]
    pub(crate) fn is_sound(self) -> bool
        ensures { result ≡ state_ok self }
    {
        if !grid_ok(self.desc) {
            false
        } else if self.has_tile() {
            self.tiled_ok()
        } else {
            self.bare_ok()
        }
    }

    // Whether a tile was accepted.
    #[tactic(auto, unfolding(crate::specs::State::has_tile))]
    pub(crate) fn has_tile(self) -> bool
        ensures { result ≡ has_tile self }
    {
        self.tile.width != 0
    }

    // A tile's form held to the first: 12 the first does not cover the canvas; 13 another size; 14 another chroma or depth.
    #[tactic(auto, unfolding(crate::specs::State::accept_of, laws::specs::Pick::pick, laws::specs::Out::refuse))]
    pub(crate) fn accept(self, m: Form) -> Result<Form, Refusal>
        ensures { result ≡ accept_of self m }
    {
        let t = self.tile;
        if self.has_tile() {
            if !m.has_size(t.width, t.height) {
                return Err(Refusal::TILE);
            }
            if !tiles::same_layout(t, m) {
                return Err(Refusal::LAYOUT);
            }
            Ok(t)
        } else if tiles::spans_canvas(self.desc, m) {
            Ok(m)
        } else {
            Err(Refusal::COVER)
        }
    }

    // The state after a cell was drawn.
    pub(crate) fn drawn(self, cell: u32, tile: Form, alpha: u32) -> Canvas
        requires { cell < 65536 }
        ensures { result ≡ record { desc = self.desc; tile = tile; alpha = alpha; marks = mark_of self.marks cell } }
    {
        let mut marks = self.marks;
        marks[(cell / 64) as usize] |= 1u64 << (cell % 64);
        Canvas {
            tile,
            alpha,
            marks,
            ..self
        }
    }
}
