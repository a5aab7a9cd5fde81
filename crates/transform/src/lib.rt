// Crop, quarter turns and mirrors, each from a record to a tight record in a lent output.
#![tactic(auto)]

ghost use Rattle.std.specs.Prelude.{◌≡◌, ◌≤◌, length};
ghost use Rattle.laws.specs.Out.{answer_of, written, fitted};
ghost use Rattle.laws.specs.Puts.{puts};
ghost use Rattle.planes.specs.Bytes.{decode, encode};
ghost use Rattle.moves.specs.inner.Move.{moved, MoveFits};
ghost use Rattle.transform.specs.Run.{crop_run, clap_run, irot_run, imir_run};

use laws::Refusal;
use motions::{crop_move, half_move, mirror_move, quarter_move, still_move};
use moves::Move;
use props::{Imir, Irot};
use records::Picture;
use sizes::{Clap, Crop};

// A record's picture as it is, in a tight record at the start. Answers its length.
pub fn tighten(picture: Picture<'_>, out: &mut [u8]) -> usize
    requires { length (encode (decode picture.«record».now picture.frame)) ≤ length out.old }
    ensures { (result ≡ length (encode (decode picture.entry.«record».now picture.entry.frame)))
        × (out.new ≡ puts out.old 0 (encode (decode picture.entry.«record».now picture.entry.frame))) }
{
    moves::write_moved(out, picture, still_move(picture.frame.form))
}

// Draws a move of a record where there is room for it.
fn draw(picture: Picture<'_>, v: Move, out: &mut [u8]) -> Result<usize, Refusal>
    requires { MoveFits picture.frame.form v }
    ensures { (result ≡ answer_of (fitted (length out.old) (encode (moved v (decode picture.entry.«record».now picture.entry.frame)))))
        × (out.new ≡ written (fitted (length out.old) (encode (moved v (decode picture.entry.«record».now picture.entry.frame)))) out.old) }
{
    if out.len() < planes::record_size(v.form) {
        return Err(Refusal::ROOM);
    }
    Ok(moves::write_moved(out, picture, v))
}

// The part of a record's picture in a rectangle between margins.
#[tactic(auto, unfolding(crate::specs::Run::crop_run, laws::specs::Out::and_then, laws::specs::Out::answer_of, laws::specs::Out::written))]
pub fn crop(record: &[u8], k: Crop, out: &mut [u8]) -> Result<usize, Refusal>
    ensures { (result ≡ answer_of (crop_run «record».now k (length out.old)))
        × (out.new ≡ written (crop_run «record».now k (length out.old)) out.old) }
{
    let frame = records::parse_record(record)?;
    let picture = Picture { record, frame };
    let m = frame.form;
    if !k.fits(m.width, m.height) {
        return Err(Refusal::OUTSIDE);
    }
    draw(picture, crop_move(m, k.rect), out)
}

// A record's picture cropped by a clap property.
#[tactic(auto, unfolding(crate::specs::Run::clap_run, laws::specs::Out::and_then, laws::specs::Out::answer_of, laws::specs::Out::written))]
pub fn apply_clap(record: &[u8], clap: Clap, out: &mut [u8]) -> Result<usize, Refusal>
    ensures { (result ≡ answer_of (clap_run «record».now clap (length out.old)))
        × (out.new ≡ written (clap_run «record».now clap (length out.old)) out.old) }
{
    let frame = records::parse_record(record)?;
    let picture = Picture { record, frame };
    let m = frame.form;
    let found = clap.resolve(m.width, m.height);
    let Ok(k) = found else {
        return Err(found.unwrap_err());
    };
    draw(picture, crop_move(m, k.rect), out)
}

// A record's picture turned by an irot property.
#[tactic(auto, unfolding(crate::specs::Run::irot_run, laws::specs::Out::and_then, laws::specs::Out::answer_of, laws::specs::Out::written))]
pub fn apply_irot(record: &[u8], irot: Irot, out: &mut [u8]) -> Result<usize, Refusal>
    ensures { (result ≡ answer_of (irot_run «record».now irot (length out.old)))
        × (out.new ≡ written (irot_run «record».now irot (length out.old)) out.old) }
{
    let frame = records::parse_record(record)?;
    let picture = Picture { record, frame };
    let m = frame.form;
    match irot.angle % 4 {
        0 => planes::hand_back(record, out),
        1 => draw(picture, quarter_move(m, true, false), out),
        2 => draw(picture, half_move(m), out),
        _ => draw(picture, quarter_move(m, false, true), out),
    }
}

// A record's picture mirrored by an imir property.
#[tactic(auto, unfolding(crate::specs::Run::imir_run, laws::specs::Out::and_then, laws::specs::Out::answer_of, laws::specs::Out::written))]
pub fn apply_imir(record: &[u8], imir: Imir, out: &mut [u8]) -> Result<usize, Refusal>
    ensures { (result ≡ answer_of (imir_run «record».now imir (length out.old)))
        × (out.new ≡ written (imir_run «record».now imir (length out.old)) out.old) }
{
    let frame = records::parse_record(record)?;
    let picture = Picture { record, frame };
    draw(picture, mirror_move(frame.form, imir.axis % 2 == 1), out)
}
