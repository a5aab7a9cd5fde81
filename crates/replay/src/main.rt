// Replays stored answers of the published Rust: each operation of the proved crates on the stored input, held to the stored bytes,
// numbers or refusal. Standard input is made of operations: a name of 16 bytes and how many calls follow. A call is 20 numbers (the
// operation, the refusal or 0, the lengths of four parts, how many zeros follow the first, the length of the answer, how many bytes of
// output and of spare are lent, ten fields), then the parts and the answer. Every number has four bytes, the highest first. A session
// with all its calls is one such call: its parts are the body, the records and the script. A refused call must leave what it is lent.
// `stdin.md` says how the file is made. For each operation the program prints how many calls are answered alike, and of how many.
#![tactic(auto)]

ghost use Rattle.std.specs.Prelude.{◌≤◌, IfOk, length};

use fill::Nclx;
use laws::Refusal;
use numbers::Cursor;
use props::{Imir, Irot};
use session::Canvas;
use sizes::{Clap, Crop, CropRect, Iscl, Margins};
use std::io;
use std::io::Read;

// What stands in every byte of an output before the call.
const BEFORE: u8 = 165;

// A call as it is stored: its twenty numbers, its four parts, and its answer.
#[derive(Clone, Copy)]
struct Stored<'a> {
    head: &'a [u8],
    one: &'a [u8],
    two: &'a [u8],
    three: &'a [u8],
    four: &'a [u8],
    want: &'a [u8],
}

// The number at a place, 0 where there is none whole.
fn number_at(s: &[u8], at: usize) -> u32 {
    let c = Cursor { at };
    match c.field(s, 4) {
        Ok((value, _)) => value,
        Err(_) => 0,
    }
}

// So many bytes from a place on, none where there are fewer.
fn part(s: &[u8], from: u32, count: u32) -> &[u8] {
    let from = from as usize;
    s.get(from..from + count as usize).unwrap_or(&s[..0])
}

// The start of a buffer that a call says, or all of it.
fn lent(out: &mut [u8], count: u32) -> &mut [u8] {
    let n = out.len().min(count as usize);
    &mut out[..n]
}

// Whether every byte from a place on is `v`.
fn rest_is(s: &[u8], from: usize, v: u8) -> bool {
    s.iter().skip(from).all(|b| *b == v)
}

impl<'a> Stored<'a> {
    // A call of parts that stand at the start of longer ones, if they are as long as it says.
    fn of(
        head: &'a [u8],
        one: &'a [u8],
        two: &'a [u8],
        three: &'a [u8],
        four: &'a [u8],
        want: &'a [u8],
    ) -> Option<Stored<'a>> {
        let zeros = number_at(head, 24) as usize;
        Some(Stored {
            head,
            one: one.get(..number_at(head, 8) as usize + zeros)?,
            two: two.get(..number_at(head, 12) as usize)?,
            three: three.get(..number_at(head, 16) as usize)?,
            four: four.get(..number_at(head, 20) as usize)?,
            want: want.get(..number_at(head, 28) as usize)?,
        })
    }

    // What a call does.
    fn operation(self) -> u32 {
        number_at(self.head, 0)
    }

    // How many bytes of output and of spare it is lent.
    fn output(self) -> u32 {
        number_at(self.head, 32)
    }

    fn spare(self) -> u32 {
        number_at(self.head, 36)
    }

    // Field i, counted from 0.
    fn field(self, i: usize) -> u32 {
        if i > 9 {
            return 0;
        }
        number_at(self.head, 40 + 4 * i)
    }

    fn byte(self, i: usize) -> u8 {
        (self.field(i) % 256) as u8
    }

    fn short(self, i: usize) -> u16 {
        (self.field(i) % 65536) as u16
    }

    fn clap(self) -> Clap {
        Clap {
            width_n: self.field(0),
            width_d: self.field(1),
            height_n: self.field(2),
            height_d: self.field(3),
            horiz_off_n: self.field(4),
            horiz_off_d: self.field(5),
            vert_off_n: self.field(6),
            vert_off_d: self.field(7),
        }
    }

    fn crop(self) -> Crop {
        Crop {
            rect: CropRect {
                x: self.field(0),
                y: self.field(1),
                width: self.field(2),
                height: self.field(3),
            },
            margins: Margins {
                left: self.field(4),
                top: self.field(5),
                right: self.field(6),
                bottom: self.field(7),
            },
        }
    }

    fn iscl(self) -> Iscl {
        Iscl {
            width_num: self.short(0),
            width_den: self.short(1),
            height_num: self.short(2),
            height_den: self.short(3),
        }
    }

    // A colour description from field i on: 1, its matrix and its range, or 0.
    fn colour(self, i: usize) -> Option<Nclx> {
        if i > 7 || self.field(i) == 0 {
            return None;
        }
        Some(Nclx {
            matrix: self.short(i + 1),
            full_range: self.field(i + 2) != 0,
        })
    }

    // Whether a refusal is the stored one.
    fn refused_so(self, e: Refusal) -> bool {
        e.reason.number() as u32 == number_at(self.head, 4)
    }

    // Whether the stored answer is no refusal.
    fn is_taken(self) -> bool {
        number_at(self.head, 4) == 0
    }

    // Whether the stored answer has a number at a place.
    fn wants(self, at: usize, n: u32) -> bool {
        n == number_at(self.want, at)
    }

    // Whether what was written is the stored answer.
    fn wrote_so(self, n: usize, out: &[u8]) -> bool {
        self.is_taken() && n == self.want.len() && out.starts_with(self.want)
    }

    // The same, and what is past it, or all of it where it was refused, as it was.
    fn written_so(self, answer: Result<usize, Refusal>, out: &[u8]) -> bool {
        match answer {
            Err(e) => rest_is(out, 0, BEFORE) && self.refused_so(e),
            Ok(n) => self.wrote_so(n, out) && rest_is(out, n, BEFORE),
        }
    }

    // Whether a scene is the stored one: past the record the output is zero, and so is the spare; refused, both are as they were.
    fn composed_so(self, answer: Result<usize, Refusal>, out: &[u8], spare: &[u8]) -> bool {
        match answer {
            Err(e) => rest_is(out, 0, BEFORE) && rest_is(spare, 0, BEFORE) && self.refused_so(e),
            Ok(n) => self.wrote_so(n, out) && rest_is(out, n, 0) && rest_is(spare, 0, 0),
        }
    }

    // An operation that writes, by its number.
    fn write(self, out: &mut [u8]) -> Result<usize, Refusal> {
        match self.operation() {
            1 => transform::crop(self.one, self.crop(), out),
            2 => transform::apply_clap(self.one, self.clap(), out),
            3 => transform::apply_irot(
                self.one,
                Irot {
                    angle: self.byte(0),
                },
                out,
            ),
            4 => transform::apply_imir(self.one, Imir { axis: self.byte(0) }, out),
            5 => resample::apply_iscl(self.one, self.iscl(), out),
            6 => resample::resize_nearest(self.one, self.field(0), self.field(1), out),
            0 | 7 => resample::rescale_depth(self.one, self.field(0), out),
            8 => attach::attach_alpha(self.one, self.two, out),
            10 => grid::composite_grid(self.one, self.two, out),
            11 => overlay::composite_overlay(self.one, self.two, self.three, self.colour(0), out),
            _ => steps_text::steps_text(self.one, out),
        }
    }

    // The same, of what the call lends.
    fn wrote_lent(self) -> bool {
        let mut out = [BEFORE; 4096];
        let answer = self.write(lent(&mut out, self.output()));
        self.written_so(answer, &out)
    }

    // A fill's three samples.
    fn filled_so(self) -> bool {
        match fill::fill_to_ycbcr(
            self.short(0),
            self.short(1),
            self.short(2),
            self.field(3),
            self.colour(4),
        ) {
            Err(e) => self.refused_so(e),
            Ok(s) => {
                self.is_taken()
                    && self.wants(0, s.y as u32)
                    && self.wants(4, s.cb as u32)
                    && self.wants(8, s.cr as u32)
            }
        }
    }

    // The rectangle that a clap leaves of a size, with the margins about it.
    fn resolved_so(self) -> bool {
        let clap = self.clap();
        match clap.resolve(self.field(8), self.field(9)) {
            Err(e) => self.refused_so(e),
            Ok(k) => {
                let r = k.rect;
                self.is_taken()
                    && self.wants(0, r.x)
                    && self.wants(4, r.y)
                    && self.wants(8, r.width)
                    && self.wants(12, r.height)
                    && k.fits(self.field(8), self.field(9))
            }
        }
    }

    // The size that an iscl makes of a size.
    fn sized_so(self) -> bool {
        let iscl = self.iscl();
        match iscl.output_size(self.field(4), self.field(5)) {
            Err(e) => self.refused_so(e),
            Ok(z) => self.is_taken() && self.wants(0, z.width) && self.wants(4, z.height),
        }
    }

    // A scene call; field 3 says whether the essential entries alone are applied.
    fn compose(self, out: &mut [u8], spare: &mut [u8]) -> Result<usize, Refusal> {
        let essential_only = self.field(3) != 0;
        if self.operation() == 15 {
            return scene::grid_scene(self.one, self.two, self.three, essential_only, out, spare);
        }
        scene::overlay_scene(
            self.one,
            self.two,
            self.three,
            essential_only,
            self.four,
            self.colour(0),
            out,
            spare,
        )
    }

    // A scene on what the call lends.
    fn scene_so(self) -> bool {
        let mut out = [BEFORE; 4096];
        let mut spare = [BEFORE; 4096];
        let answer = self.compose(
            lent(&mut out, self.output()),
            lent(&mut spare, self.spare()),
        );
        self.composed_so(
            answer,
            lent(&mut out, self.output()),
            lent(&mut spare, self.spare()),
        )
    }

    // A call of a session, by the first four of its five numbers of the script: 0 place, 1 blank, else finish; the cell; its record's
    // place and length. The state that it leaves, and where it is a finish the length of the finished record.
    fn call(self, canvas: Canvas, turn: u32, out: &mut [u8]) -> Result<(Canvas, usize), Refusal> {
        let at = 20 * turn as usize;
        let cell = number_at(self.three, at + 4);
        match number_at(self.three, at) {
            0 => {
                let record = part(
                    self.two,
                    number_at(self.three, at + 8),
                    number_at(self.three, at + 12),
                );
                Ok((canvas.place(cell, record, out)?, 0))
            }
            1 => Ok((canvas.blank(cell, out)?, 0)),
            _ => Ok((canvas, canvas.finish(out.len())?)),
        }
    }

    // Whether so many calls on a canvas are answered as stored: a number each, 0 or else the refusal's, which leaves the buffer as it was;
    // then the record where the last one is a finish.
    fn calls_so(self, start: Canvas, calls: u32) -> bool {
        let mut out = [BEFORE; 4096];
        let mut canvas = start;
        let mut length: usize = 0;
        for turn in 0..calls {
            let before = out;
            let size = number_at(self.three, 20 * turn as usize + 16);
            let at = 4 * turn as usize;
            match self.call(canvas, turn, lent(&mut out, size)) {
                Err(e) => {
                    if !self.wants(at, e.reason.number() as u32) || out != before {
                        return false;
                    }
                    length = 0;
                }
                Ok((next, n)) => {
                    if !self.wants(at, 0) {
                        return false;
                    }
                    canvas = next;
                    length = n;
                }
            }
        }
        match self.want.get(4 * calls as usize..) {
            None => false,
            Some(record) => record.len() == length && out.starts_with(record),
        }
    }

    // A session, from the start of its canvas on; field 0 says how many calls follow.
    fn session_so(self) -> bool {
        match Canvas::start(self.one) {
            Err(e) => self.refused_so(e),
            Ok(canvas) => self.is_taken() && self.calls_so(canvas, self.field(0)),
        }
    }

    // Whether the call is answered as it is stored.
    fn answered_so(self) -> bool {
        match self.operation() {
            9 => self.filled_so(),
            12 => self.resolved_so(),
            13 => self.sized_so(),
            17 => self.session_so(),
            15.. => self.scene_so(),
            _ => self.wrote_lent(),
        }
    }
}

// Reads until `buf` is full or the input ends, and returns how many bytes it put at the start of `buf`.
fn read_full<R: Read>(input: &mut R, buf: &mut [u8]) -> io::Result<usize>
    ensures { IfOk result (λ n. n ≤ length buf.new) }
{
    let mut done: usize = 0;
    while done < buf.len() {
        let n = input.read(&mut buf[done..])?;
        if n == 0 {
            break;
        }
        done += n;
    }
    Ok(done)
}

// Reads so many bytes to the start of a part, none where it is shorter.
fn read_part<R: Read>(input: &mut R, part: &mut [u8], count: u32) -> io::Result<()> {
    let n = count as usize;
    if n <= part.len() {
        read_full(input, &mut part[..n])?;
    }
    Ok(())
}

// Reads a call, and says whether it is answered as it is stored.
fn replay_one<R: Read>(input: &mut R) -> io::Result<bool> {
    let mut head = [0u8; 80];
    let mut one = [0u8; 65664];
    let mut two = [0u8; 1024];
    let mut three = [0u8; 1024];
    let mut four = [0u8; 1024];
    let mut want = [0u8; 1024];
    read_full(input, &mut head)?;
    read_part(input, &mut one, number_at(&head, 8))?;
    read_part(input, &mut two, number_at(&head, 12))?;
    read_part(input, &mut three, number_at(&head, 16))?;
    read_part(input, &mut four, number_at(&head, 20))?;
    read_part(input, &mut want, number_at(&head, 28))?;
    let call = Stored::of(&head, &one, &two, &three, &four, &want);
    Ok(call.is_some_and(|c| c.answered_so()))
}

// Reads so many calls, and says how many of them are answered as they are stored.
fn replay_all<R: Read>(input: &mut R, count: u32) -> io::Result<u32> {
    let mut alike: u32 = 0;
    for _turn in 0..count {
        if replay_one(input)? {
            alike += 1;
        }
    }
    Ok(alike)
}

// One operation and its line; whether there was one.
fn operation<R: Read>(rt: &impl Print, input: &mut R) -> io::Result<bool> {
    let mut name = [0u8; 16];
    let mut number = [0u8; 4];
    if read_full(input, &mut name)? < 16 {
        return Ok(false);
    }
    read_full(input, &mut number)?;
    let count = number_at(&number, 0);
    rt.write_all(&name)?;
    let alike = replay_all(input, count)?;
    println!(rt; "{alike} of {count}")?;
    Ok(true)
}

fn main(rt: HostRuntime) -> io::Result<()> {
    let mut input = rt.stdin();
    for _ in 0..1000 {
        if !operation(&rt, &mut input)? {
            break;
        }
    }
    Ok(())
}
