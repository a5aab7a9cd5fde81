// What a property makes of a form, and whether a sight can hold it.
ghost use Rattle.std.specs.Prelude.{◌≡◌};
ghost use Rattle.image.specs.Sound.{FormSound};
ghost use Rattle.stages.specs.inner.Held.{form_after, moves, scales, is_even, is_held};

use image::Form;
use laws::Refusal;
use props::Property;

// Whether a property draws: any other one is skipped.
#[tactic(auto, unfolding(crate::specs::inner::Held::moves))]
pub fn is_move(property: Property) -> bool
    ensures { result ≡ moves property }
{
    !matches!(property, Property::Other)
}

#[tactic(auto, unfolding(crate::specs::inner::Held::scales))]
fn is_scaling(property: Property) -> bool
    ensures { result ≡ scales property }
{
    matches!(property, Property::Iscl(_))
}

// Whether no halved side is odd.
#[tactic(auto, unfolding(crate::specs::inner::Held::is_even))]
fn is_even(m: Form) -> bool
    ensures { result ≡ is_even m }
{
    !m.format
        .needs_444(image::is_odd(m.width), image::is_odd(m.height))
}

// Whether a sight can hold what a property makes of a form. A mirror moves the chroma of an odd side otherwise than its pixels.
#[tactic(auto, unfolding(crate::specs::inner::Held::is_held))]
pub fn is_held(property: Property, m: Form) -> bool
    ensures { result ≡ is_held property m }
{
    !is_scaling(property) && is_even(m)
}

// The form after a property. Refusals: a clap's, an iscl's.
#[tactic(auto, unfolding(crate::specs::inner::Held::form_after, laws::specs::Out::and_then))]
pub fn form_after(m: Form, property: Property) -> Result<Form, Refusal>
    requires { FormSound m }
    ensures { result ≡ form_after property m }
{
    match property {
        Property::Other => Ok(m),
        Property::Clap(c) => {
            let found = c.resolve(m.width, m.height);
            let Ok(k) = found else {
                return Err(found.unwrap_err());
            };
            Ok(motions::crop_form(m, k.rect))
        }
        Property::Irot(k) => Ok(motions::turn_form(m, k)),
        Property::Imir(_) => Ok(m),
        Property::Iscl(k) => {
            let z = k.output_size(m.width, m.height)?;
            Ok(m.sized(z.width, z.height))
        }
    }
}
