// The session's calls. A state is taken by value, and the next one is handed back; a refused call leaves the caller's.
ghost use Rattle.std.specs.Prelude.{◌≡◌};
ghost use Rattle.session.specs.Session.{drawn_canvas, drawn_buffer, session_of, place_of, blank_of, finish_of};

use crate::draw::{begin, draw_blank, tell_alpha};
use crate::marks::all_marked;
use crate::state::Canvas;
use derived::GridDescriptor;
use laws::Refusal;

impl Canvas {
    // A canvas for a grid's body. Refusals: 1, 2, 1, 3, 4 as grid.
    #[tactic(auto, unfolding(crate::specs::Session::session_of, laws::specs::Out::and_then))]
    pub fn start(body: &[u8]) -> Result<Canvas, Refusal>
        ensures { result ≡ session_of body.now }
    {
        let g = GridDescriptor::parse(body)?;
        Ok(Canvas::open(g))
    }

    // The length of the record in a buffer of so many bytes. Refusals: 5; 15 a cell missing; 17.
    #[tactic(auto, unfolding(crate::specs::Session::finish_of, crate::specs::Session::reserved_form, tiles::specs::Tiles::count_of, laws::specs::Out::refuse))]
    pub fn finish(self, room: usize) -> Result<usize, Refusal>
        ensures { result ≡ finish_of self room }
    {
        if !self.is_sound() {
            return Err(Refusal::MALFORMED);
        }
        if !self.has_tile() {
            return Err(Refusal::MISSING);
        }
        let g = self.desc;
        let t = self.tile;
        if !all_marked(&self.marks, g.rows * g.columns) {
            return Err(Refusal::MISSING);
        }
        if room < planes::record_size(tiles::canvas_form(g, t, 1)) {
            return Err(Refusal::ROOM);
        }
        Ok(planes::record_size(tiles::canvas_form(g, t, self.alpha)))
    }

    // A tile's record in its cell. Refusals: 5; 11 index outside; the record's; 12, 13, 14; 17.
    pub fn place(self, index: u32, record: &[u8], buffer: &mut [u8]) -> Result<Canvas, Refusal>
        ensures { (result ≡ drawn_canvas (place_of self index «record».now buffer.old))
            × (buffer.new ≡ drawn_buffer buffer.old (place_of self index «record».now buffer.old)) }
    {
        if !self.is_sound() {
            return Err(Refusal::MALFORMED);
        }
        let g = self.desc;
        let columns = g.columns;
        if index >= g.rows * columns {
            return Err(Refusal::COUNT);
        }
        let fr = records::parse_record(record)?;
        let m = fr.form;
        let t = self.accept(m)?;
        let form = tiles::canvas_form(g, t, 1);
        if buffer.len() < planes::record_size(form) {
            return Err(Refusal::ROOM);
        }
        let promoted = tiles::promotes(g, t);
        begin(buffer, !self.has_tile(), form);
        tell_alpha(buffer, form, m);
        cells::draw_tile(
            buffer,
            planes::tight(form),
            record,
            fr,
            promoted,
            index % columns,
            index / columns,
        );
        let canvas = self.drawn(index, t, tiles::with_tile(self.alpha, m));
        Ok(canvas)
    }

    // A blank cell of the first tile's form. Refusals: 5; 15 nothing placed; 11 index outside; 17.
    pub fn blank(self, index: u32, buffer: &mut [u8]) -> Result<Canvas, Refusal>
        ensures { (result ≡ drawn_canvas (blank_of self index buffer.old))
            × (buffer.new ≡ drawn_buffer buffer.old (blank_of self index buffer.old)) }
    {
        if !self.is_sound() {
            return Err(Refusal::MALFORMED);
        }
        if !self.has_tile() {
            return Err(Refusal::MISSING);
        }
        let g = self.desc;
        let t = self.tile;
        if index >= g.rows * g.columns {
            return Err(Refusal::COUNT);
        }
        let form = tiles::canvas_form(g, t, 1);
        if buffer.len() < planes::record_size(form) {
            return Err(Refusal::ROOM);
        }
        let promoted = tiles::promotes(g, t);
        tell_alpha(buffer, form, t);
        draw_blank(
            buffer,
            planes::tight(form),
            t,
            promoted,
            index % g.columns,
            index / g.columns,
        );
        let canvas = self.drawn(index, t, self.alpha);
        Ok(canvas)
    }
}
