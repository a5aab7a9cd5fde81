// One operation on one record: crop, clap, irot, imir. Each answers the length of the record it writes.
ghost use Rattle.std.specs.Prelude.{◌≡◌, length};
ghost use Rattle.laws.specs.Out.{answer_of, written};
ghost use Rattle.transform.specs.Run.{clap_run, crop_run, imir_run, irot_run};
ghost use Rattle.words.specs.Code.{answer_code};
ghost use Rattle.words.specs.Properties.{crop_by};

#[unsafe(no_mangle)]
pub extern "C" fn compose_crop(
    record: &[u8],
    x: u32,
    y: u32,
    width: u32,
    height: u32,
    left: u32,
    top: u32,
    right: u32,
    bottom: u32,
    out: &mut [u8],
) -> u64
    ensures { (result ≡ answer_code (answer_of (crop_run «record».now (crop_by x y width height left top right bottom) (length out.old))))
        × (out.new ≡ written (crop_run «record».now (crop_by x y width height left top right bottom) (length out.old)) out.old) }
{
    capi::operation::compose_crop(record, x, y, width, height, left, top, right, bottom, out)
}

#[unsafe(no_mangle)]
pub extern "C" fn compose_clap(
    record: &[u8],
    width_n: u32,
    width_d: u32,
    height_n: u32,
    height_d: u32,
    horiz_off_n: u32,
    horiz_off_d: u32,
    vert_off_n: u32,
    vert_off_d: u32,
    out: &mut [u8],
) -> u64
    ensures { (result ≡ answer_code (answer_of (clap_run «record».now (record { width_n = width_n; width_d = width_d; height_n = height_n; height_d = height_d; horiz_off_n = horiz_off_n; horiz_off_d = horiz_off_d; vert_off_n = vert_off_n; vert_off_d = vert_off_d }) (length out.old))))
        × (out.new ≡ written (clap_run «record».now (record { width_n = width_n; width_d = width_d; height_n = height_n; height_d = height_d; horiz_off_n = horiz_off_n; horiz_off_d = horiz_off_d; vert_off_n = vert_off_n; vert_off_d = vert_off_d }) (length out.old)) out.old) }
{
    capi::operation::compose_clap(
        record,
        width_n,
        width_d,
        height_n,
        height_d,
        horiz_off_n,
        horiz_off_d,
        vert_off_n,
        vert_off_d,
        out,
    )
}

#[unsafe(no_mangle)]
pub extern "C" fn compose_irot(record: &[u8], angle: u8, out: &mut [u8]) -> u64
    ensures { (result ≡ answer_code (answer_of (irot_run «record».now (record { angle = angle }) (length out.old))))
        × (out.new ≡ written (irot_run «record».now (record { angle = angle }) (length out.old)) out.old) }
{
    capi::operation::compose_irot(record, angle, out)
}

#[unsafe(no_mangle)]
pub extern "C" fn compose_imir(record: &[u8], axis: u8, out: &mut [u8]) -> u64
    ensures { (result ≡ answer_code (answer_of (imir_run «record».now (record { axis = axis }) (length out.old))))
        × (out.new ≡ written (imir_run «record».now (record { axis = axis }) (length out.old)) out.old) }
{
    capi::operation::compose_imir(record, axis, out)
}
