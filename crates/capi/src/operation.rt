// One operation on one record: crop, clap, irot, imir. Each answers the length of the record it writes.
ghost use Rattle.std.specs.Prelude.{◌≡◌, length};
ghost use Rattle.laws.specs.Out.{answer_of, written};
ghost use Rattle.transform.specs.Run.{clap_run, crop_run, imir_run, irot_run};
ghost use Rattle.words.specs.Code.{answer_code};
ghost use Rattle.words.specs.Properties.{crop_by};

use props::{Imir, Irot};
use sizes::{Clap, Crop, CropRect, Margins};

// The part of a record in a rectangle between margins. Refusals: the record's, 9 where they are not those of a crop of its picture, 17.
#[unsafe(no_mangle)]
pub extern "C" fn compose_crop(
    record: &[u8],
    x: u32,
    y: u32,
    width: u32,
    height: u32,
    left: u32,
    top: u32,
    right: u32,
    bottom: u32,
    out: &mut [u8],
) -> u64
    ensures { (result ≡ answer_code (answer_of (crop_run «record».now (crop_by x y width height left top right bottom) (length out.old))))
        × (out.new ≡ written (crop_run «record».now (crop_by x y width height left top right bottom) (length out.old)) out.old) }
{
    words::answer_code(transform::crop(
        record,
        Crop {
            rect: CropRect {
                x,
                y,
                width,
                height,
            },
            margins: Margins {
                left,
                top,
                right,
                bottom,
            },
        },
        out,
    ))
}

// A record cropped by a clap property, the offsets' numerators as 32-bit patterns. Refusals: the record's, 7, 8, 9, 17.
#[unsafe(no_mangle)]
pub extern "C" fn compose_clap(
    record: &[u8],
    width_n: u32,
    width_d: u32,
    height_n: u32,
    height_d: u32,
    horiz_off_n: u32,
    horiz_off_d: u32,
    vert_off_n: u32,
    vert_off_d: u32,
    out: &mut [u8],
) -> u64
    ensures { (result ≡ answer_code (answer_of (clap_run «record».now (record { width_n = width_n; width_d = width_d; height_n = height_n; height_d = height_d; horiz_off_n = horiz_off_n; horiz_off_d = horiz_off_d; vert_off_n = vert_off_n; vert_off_d = vert_off_d }) (length out.old))))
        × (out.new ≡ written (clap_run «record».now (record { width_n = width_n; width_d = width_d; height_n = height_n; height_d = height_d; horiz_off_n = horiz_off_n; horiz_off_d = horiz_off_d; vert_off_n = vert_off_n; vert_off_d = vert_off_d }) (length out.old)) out.old) }
{
    words::answer_code(transform::apply_clap(
        record,
        Clap {
            width_n,
            width_d,
            height_n,
            height_d,
            horiz_off_n,
            horiz_off_d,
            vert_off_n,
            vert_off_d,
        },
        out,
    ))
}

// A record turned by angle mod 4 quarter turns anticlockwise. Refusals: the record's, 17.
#[unsafe(no_mangle)]
pub extern "C" fn compose_irot(record: &[u8], angle: u8, out: &mut [u8]) -> u64
    ensures { (result ≡ answer_code (answer_of (irot_run «record».now (record { angle = angle }) (length out.old))))
        × (out.new ≡ written (irot_run «record».now (record { angle = angle }) (length out.old)) out.old) }
{
    words::answer_code(transform::apply_irot(record, Irot { angle }, out))
}

// A record mirrored: axis mod 2, 0 top and bottom, 1 left and right. Refusals: the record's, 17.
#[unsafe(no_mangle)]
pub extern "C" fn compose_imir(record: &[u8], axis: u8, out: &mut [u8]) -> u64
    ensures { (result ≡ answer_code (answer_of (imir_run «record».now (record { axis = axis }) (length out.old))))
        × (out.new ≡ written (imir_run «record».now (record { axis = axis }) (length out.old)) out.old) }
{
    words::answer_code(transform::apply_imir(record, Imir { axis }, out))
}
