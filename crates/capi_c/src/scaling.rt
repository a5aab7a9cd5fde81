// Scaling, another depth, and an attached alpha plane. Each call answers the length of the record it writes.
ghost use Rattle.std.specs.Prelude.{◌≡◌, length};
ghost use Rattle.laws.specs.Out.{answer_of, written};
ghost use Rattle.attach.specs.Attach.{attach_run};
ghost use Rattle.resample.specs.Run.{depth_run, iscl_run, nearest_run};
ghost use Rattle.words.specs.Code.{answer_code};

#[unsafe(no_mangle)]
pub extern "C" fn compose_iscl(
    record: &[u8],
    width_num: u16,
    width_den: u16,
    height_num: u16,
    height_den: u16,
    out: &mut [u8],
) -> u64
    ensures { (result ≡ answer_code (answer_of (iscl_run «record».now (record { width_num = width_num; width_den = width_den; height_num = height_num; height_den = height_den }) (length out.old))))
        × (out.new ≡ written (iscl_run «record».now (record { width_num = width_num; width_den = width_den; height_num = height_num; height_den = height_den }) (length out.old)) out.old) }
{
    capi::scaling::compose_iscl(record, width_num, width_den, height_num, height_den, out)
}

#[unsafe(no_mangle)]
pub extern "C" fn compose_resize_nearest(
    record: &[u8],
    width: u32,
    height: u32,
    out: &mut [u8],
) -> u64
    ensures { (result ≡ answer_code (answer_of (nearest_run «record».now width height (length out.old))))
        × (out.new ≡ written (nearest_run «record».now width height (length out.old)) out.old) }
{
    capi::scaling::compose_resize_nearest(record, width, height, out)
}

#[unsafe(no_mangle)]
pub extern "C" fn compose_rescale_depth(record: &[u8], depth: u32, out: &mut [u8]) -> u64
    ensures { (result ≡ answer_code (answer_of (depth_run «record».now depth (length out.old))))
        × (out.new ≡ written (depth_run «record».now depth (length out.old)) out.old) }
{
    capi::scaling::compose_rescale_depth(record, depth, out)
}

#[unsafe(no_mangle)]
pub extern "C" fn compose_attach_alpha(master: &[u8], alpha: &[u8], out: &mut [u8]) -> u64
    ensures { (result ≡ answer_code (answer_of (attach_run master.now alpha.now (length out.old))))
        × (out.new ≡ written (attach_run master.now alpha.now (length out.old)) out.old) }
{
    capi::scaling::compose_attach_alpha(master, alpha, out)
}
