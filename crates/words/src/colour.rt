// A colour description from three numbers.
ghost use Rattle.std.specs.Prelude.{◌≡◌};
ghost use Rattle.words.specs.Fill.{colour_of};

use fill::Nclx;

// Colour 0 is none; a full range of 0 is the studio range.
#[tactic(auto, unfolding(crate::specs::Fill::colour_of, laws::specs::Pick::pick))]
pub fn colour_of(colour: u8, matrix: u16, full_range: u8) -> Option<Nclx>
    ensures { result ≡ colour_of colour matrix full_range }
{
    if colour == 0 {
        None
    } else {
        Some(Nclx {
            matrix,
            full_range: full_range != 0,
        })
    }
}
