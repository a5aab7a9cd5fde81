// A picture's size, and what a property makes of it.
ghost use Rattle.std.specs.Prelude.{◌≡◌};
ghost use Rattle.props.specs.Size.{size_after};

use crate::entry::Property;
use image::Size;
use laws::Refusal;

impl Property {
    // The size of what the property makes of a picture of that size. Refusals: a clap's, an iscl's.
    #[tactic(auto, unfolding(crate::specs::Size::size_after, crate::specs::Size::swapped, image::specs::Format::odd, laws::specs::Out::and_then, laws::specs::Pick::pick))]
    pub fn size_after(self, size: Size) -> Result<Size, Refusal>
        ensures { result ≡ size_after self size }
    {
        match self {
            Property::Other => Ok(size),
            Property::Clap(c) => {
                let found = c.resolve(size.width, size.height);
                let Ok(k) = found else {
                    return Err(found.unwrap_err());
                };
                Ok(Size {
                    width: k.rect.width,
                    height: k.rect.height,
                })
            }
            Property::Irot(t) => {
                if t.angle % 4 % 2 == 1 {
                    Ok(Size {
                        width: size.height,
                        height: size.width,
                    })
                } else {
                    Ok(size)
                }
            }
            Property::Imir(_) => Ok(size),
            Property::Iscl(k) => k.output_size(size.width, size.height),
        }
    }
}
