// The canvas session, its state in plain words that the caller keeps. Any words are safe: a state that no call can have made is 5.
ghost use Rattle.std.specs.Prelude.{◌≡◌, length};
ghost use Rattle.laws.specs.Out.{written};
ghost use Rattle.session.specs.Session.{drawn_buffer};
ghost use Rattle.words.specs.Code.{code_of, none_of};
ghost use Rattle.words.specs.Canvas.{start_run, place_run, blank_run, finish_run, state_after};

#[unsafe(no_mangle)]
pub extern "C" fn compose_canvas_start(body: &[u8], state: &mut [u64]) -> u64
    ensures { (result ≡ code_of (none_of (start_run body.now (length state.old))))
        × (state.new ≡ written (start_run body.now (length state.old)) state.old) }
{
    capi::canvas::compose_canvas_start(body, state)
}

#[unsafe(no_mangle)]
pub extern "C" fn compose_canvas_place(
    state: &mut [u64],
    index: u32,
    record: &[u8],
    buffer: &mut [u8],
) -> u64
    ensures { (result ≡ code_of (none_of (place_run state.old index «record».now buffer.old)))
        × (state.new ≡ state_after (place_run state.old index «record».now buffer.old) state.old)
        × (buffer.new ≡ drawn_buffer buffer.old (place_run state.old index «record».now buffer.old)) }
{
    capi::canvas::compose_canvas_place(state, index, record, buffer)
}

#[unsafe(no_mangle)]
pub extern "C" fn compose_canvas_blank(state: &mut [u64], index: u32, buffer: &mut [u8]) -> u64
    ensures { (result ≡ code_of (none_of (blank_run state.old index buffer.old)))
        × (state.new ≡ state_after (blank_run state.old index buffer.old) state.old)
        × (buffer.new ≡ drawn_buffer buffer.old (blank_run state.old index buffer.old)) }
{
    capi::canvas::compose_canvas_blank(state, index, buffer)
}

#[unsafe(no_mangle)]
pub extern "C" fn compose_canvas_finish(state: &[u64], buffer: &[u8]) -> u64
    ensures { result ≡ code_of (finish_run state.now (length buffer.now)) }
{
    capi::canvas::compose_canvas_finish(state, buffer)
}
