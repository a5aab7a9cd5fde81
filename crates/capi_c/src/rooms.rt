// How many bytes a record or a scene takes, before any buffer is lent.
ghost use Rattle.std.specs.Prelude.{◌≡◌, Option};
ghost use Rattle.laws.specs.Out.{and_then};
ghost use Rattle.image.specs.Format.{form_of};
ghost use Rattle.planes.specs.Bytes.{size_of};
ghost use Rattle.fill.specs.declared.Nclx.{Nclx};
ghost use Rattle.scene_room.specs.Room.{longest_of};
ghost use Rattle.scene_room.specs.Scene.{grid_drawn, overlay_drawn};
ghost use Rattle.words.specs.Code.{code_of};
ghost use Rattle.words.specs.Spots.{flag_of};

#[unsafe(no_mangle)]
pub extern "C" fn compose_record_size(
    width: u32,
    height: u32,
    chroma: u32,
    depth: u32,
    alpha: u32,
) -> u64
    ensures { result ≡ code_of (and_then (form_of width height chroma depth alpha) (λ m. Ok (size_of m))) }
{
    capi::rooms::compose_record_size(width, height, chroma, depth, alpha)
}

#[unsafe(no_mangle)]
pub extern "C" fn compose_grid_scene_room(
    body: &[u8],
    tray: &[u8],
    chain: &[u8],
    essential_only: u8,
) -> u64
    ensures { result ≡ code_of (longest_of (grid_drawn body.now tray.now chain.now (flag_of essential_only))) }
{
    capi::rooms::compose_grid_scene_room(body, tray, chain, essential_only)
}

#[unsafe(no_mangle)]
pub extern "C" fn compose_overlay_scene_room(
    body: &[u8],
    tray: &[u8],
    chain: &[u8],
    essential_only: u8,
    premultiplied: &[u8],
) -> u64
    ensures { (colour : Option Nclx) → result ≡ code_of (longest_of (overlay_drawn body.now tray.now chain.now (flag_of essential_only) premultiplied.now colour)) }
{
    capi::rooms::compose_overlay_scene_room(body, tray, chain, essential_only, premultiplied)
}
