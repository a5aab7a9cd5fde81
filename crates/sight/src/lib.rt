// What a chain without scaling leaves of a picture (document 01, "Point call"): a rectangle of it, exchanged or not, then turned.
#![tactic(auto)]

ghost use Rattle.std.specs.Prelude.{◌≡◌, ◌+◌, ◌-◌, ◌<◌, ◌≤◌};
ghost use Rattle.laws.specs.Out.{and_then};
ghost use Rattle.laws.specs.Pick.{pick};
ghost use Rattle.props.specs.Chain.{applies, entries_at};
ghost use Rattle.props.specs.inner.Judged.{Judged};
ghost use Rattle.sizes.specs.Margins.{Around};
ghost use Rattle.motions.specs.Place.{unturn};
ghost use Rattle.motions.specs.Turn.{quarter_of};
ghost use Rattle.sight.specs.Sight.{whole, final_width, final_height, quarter_back, unturn_crop, exchange_crop, then_crop, then_turn, then_mirror, sight_after, sight_of, source_place, bounded_source, place_out};
ghost use Rattle.sight.specs.inner.Bounded.{Bounded, Lies};

use laws::{Item, Refusal};
use props::{Chain, Property, PropertyEntry};
use sizes::{Crop, CropRect, Margins};

// A rectangle of a picture, its left and right exchanged or not, then 0 to 3 quarter turns anticlockwise.
#[derive(Clone, Copy)]
pub struct Sight {
    pub area: CropRect,
    pub exchanged: bool,
    pub turns: u32,
}

// A place of the picture.
#[derive(Clone, Copy)]
pub struct CanvasPlace {
    pub x: u32,
    pub y: u32,
}

// A crop before a quarter turn: its left margin was the bottom, its top the left, its right the top, its bottom the right.
#[tactic(auto, unfolding(crate::specs::Sight::quarter_back))]
fn quarter_back(k: Crop) -> Crop
    ensures { result ≡ quarter_back k }
{
    let r = k.rect;
    let m = k.margins;
    Crop {
        rect: CropRect {
            x: m.bottom,
            y: m.left,
            width: r.height,
            height: r.width,
        },
        margins: Margins {
            left: m.bottom,
            top: m.left,
            right: m.top,
            bottom: m.right,
        },
    }
}

impl Sight {
    // The whole of a picture of that size, as it is.
    #[tactic(auto, unfolding(crate::specs::Sight::whole))]
    pub fn new(width: u32, height: u32) -> Sight
        ensures { result ≡ whole width height }
    {
        Sight {
            area: CropRect {
                x: 0,
                y: 0,
                width,
                height,
            },
            exchanged: false,
            turns: 0,
        }
    }

    // The final size: the rectangle's sides, swapped at 1 or 3 turns.
    #[tactic(auto, unfolding(crate::specs::Sight::final_width, crate::specs::Sight::wide_of, motions::specs::Place::sideways, motions::specs::Place::swaps, motions::specs::Turn::quarter_of, laws::specs::Pick::pick))]
    pub fn width(self) -> u32
        ensures { result ≡ final_width self }
    {
        if self.turns % 2 == 1 {
            self.area.height
        } else {
            self.area.width
        }
    }

    #[tactic(auto, unfolding(crate::specs::Sight::final_height, crate::specs::Sight::high_of, motions::specs::Place::sideways, motions::specs::Place::swaps, motions::specs::Turn::quarter_of, laws::specs::Pick::pick))]
    pub fn height(self) -> u32
        ensures { result ≡ final_height self }
    {
        if self.turns % 2 == 1 {
            self.area.width
        } else {
            self.area.height
        }
    }

    // A crop of what is seen, before the turns.
    #[tactic(auto, unfolding(crate::specs::Sight::unturn_crop, motions::specs::Turn::quarter_of, laws::specs::Pick::pick))]
    fn unturned(self, k: Crop) -> Crop
        ensures { result ≡ unturn_crop (quarter_of self.turns) k }
    {
        match self.turns % 4 {
            0 => k,
            1 => quarter_back(k),
            2 => quarter_back(quarter_back(k)),
            _ => quarter_back(quarter_back(quarter_back(k))),
        }
    }

    // The same before the exchange.
    #[tactic(auto, unfolding(crate::specs::Sight::exchange_crop))]
    fn unexchanged(self, k: Crop) -> Crop
        ensures { result ≡ exchange_crop self.exchanged k }
    {
        let m = k.margins;
        if self.exchanged {
            Crop {
                rect: CropRect {
                    x: m.right,
                    ..k.rect
                },
                margins: Margins {
                    left: m.right,
                    right: m.left,
                    ..m
                },
            }
        } else {
            k
        }
    }

    // After a crop of what is seen.
    fn cropped(self, k: Crop) -> Sight
        requires { Bounded self.area × Around k (final_width self) (final_height self) }
        ensures { result ≡ then_crop self k }
    {
        let area = self.area;
        let r = self.unexchanged(self.unturned(k)).rect;
        Sight {
            area: CropRect {
                x: area.x + r.x,
                y: area.y + r.y,
                width: r.width,
                height: r.height,
            },
            ..self
        }
    }

    // After so many quarter turns more.
    #[tactic(auto, unfolding(crate::specs::Sight::then_turn))]
    fn turned(self, angle: u8) -> Sight
        ensures { result ≡ then_turn self angle }
    {
        Sight {
            turns: (self.turns % 4 + angle as u32) % 4,
            ..self
        }
    }

    // After an exchange of left and right, or of top and bottom.
    #[tactic(auto, unfolding(crate::specs::Sight::then_mirror, crate::specs::Sight::mirror_turns))]
    fn mirrored(self, sideways: bool) -> Sight
        ensures { result ≡ then_mirror self sideways }
    {
        let turns = self.turns % 4;
        Sight {
            exchanged: !self.exchanged,
            turns: if sideways {
                (4 - turns) % 4
            } else {
                (6 - turns) % 4
            },
            ..self
        }
    }

    // After a property. Refusals: a clap's, 18 an iscl.
    #[tactic(auto, unfolding(crate::specs::Sight::sight_after, laws::specs::Out::and_then, image::specs::Format::odd))]
    pub fn after(self, property: Property) -> Result<Sight, Refusal>
        requires { Bounded self.area }
        ensures { result ≡ sight_after property self }
    {
        match property {
            Property::Other => Ok(self),
            Property::Clap(c) => {
                let found = c.resolve(self.width(), self.height());
                let Ok(k) = found else {
                    return Err(found.unwrap_err());
                };
                Ok(self.cropped(k))
            }
            Property::Irot(k) => Ok(self.turned(k.angle)),
            Property::Imir(k) => Ok(self.mirrored(k.axis % 2 == 1)),
            Property::Iscl(_) => Err(Refusal::POINT),
        }
    }

    // After an entry: under the flag a property that is not essential is skipped.
    #[tactic(auto, unfolding(laws::specs::Pick::pick, props::specs::Chain::applies))]
    pub fn after_entry(self, entry: PropertyEntry, essential_only: bool) -> Result<Sight, Refusal>
        requires { Bounded self.area }
        ensures { result ≡ pick (applies essential_only entry) (sight_after entry.property self) (Ok self) }
    {
        if !essential_only || entry.essential {
            self.after(entry.property)
        } else {
            Ok(self)
        }
    }

    // Where a place of what is seen lies before the turns.
    #[tactic(auto, unfolding(motions::specs::Place::unturn, motions::specs::Turn::quarter_of, laws::specs::Pick::pick, crate::specs::Sight::final_width, crate::specs::Sight::wide_of, crate::specs::Sight::final_height, crate::specs::Sight::high_of, motions::specs::Place::sideways, motions::specs::Place::swaps))]
    fn unturned_place(self, column: u32, row: u32) -> CanvasPlace
        requires { (column < final_width self) × (row < final_height self) }
        ensures { Lies result (unturn (quarter_of self.turns) self.area.width self.area.height column row) }
    {
        let area = self.area;
        match self.turns % 4 {
            0 => CanvasPlace { x: column, y: row },
            1 => CanvasPlace {
                x: area.width - 1 - row,
                y: column,
            },
            2 => CanvasPlace {
                x: area.width - 1 - column,
                y: area.height - 1 - row,
            },
            _ => CanvasPlace {
                x: row,
                y: area.height - 1 - column,
            },
        }
    }

    // A column before the exchange.
    #[tactic(auto, unfolding(laws::specs::Pick::pick))]
    fn unexchanged_column(self, column: u32) -> u32
        requires { column < self.area.width }
        ensures { result ≡ pick self.exchanged (self.area.width - 1 - column) column }
    {
        if self.exchanged {
            self.area.width - 1 - column
        } else {
            column
        }
    }

    // A place of what is seen, in the picture, of a rectangle whose far edges are 32-bit numbers. Refusal: 18 a place outside.
    fn bounded_place(self, column: u32, row: u32) -> Result<CanvasPlace, Refusal>
        requires { Bounded self.area }
        ensures { place_out result ≡ source_place self column row }
    {
        if self.width() <= column || self.height() <= row {
            return Err(Refusal::POINT);
        }
        let area = self.area;
        let l = self.unturned_place(column, row);
        let x = self.unexchanged_column(l.x);
        Ok(CanvasPlace {
            x: area.x + x,
            y: area.y + l.y,
        })
    }

    // The place of the picture that a final place shows. Refusals: 18 a far edge that is no 32-bit number, which no chain leaves; 18 a
    // place outside.
    pub fn place(self, column: u32, row: u32) -> Result<CanvasPlace, Refusal>
        ensures { place_out result ≡ bounded_source self column row }
    {
        let area = self.area;
        if area.x as u64 + area.width as u64 > 4294967295
            || area.y as u64 + area.height as u64 > 4294967295
        {
            return Err(Refusal::POINT);
        }
        self.bounded_place(column, row)
    }
}

// What the entries of a chain that was judged leave of a picture of that size. Refusals: the entries' in turn, with their index.
pub fn reduce_judged(
    s: &[u8],
    chain: Chain,
    essential_only: bool,
    width: u32,
    height: u32,
) -> Result<Sight, Refusal>
    requires { Judged s.now chain }
    ensures { result ≡ and_then (entries_at chain.count s.now chain.first) (λ es. sight_of es essential_only width height) }
{
    let Chain { count, first } = chain;
    let mut next = first;
    let mut reached = Sight::new(width, height);
    for i in 0..count {
        let (entry, past) = props::read_entry(s, next)?;
        match reached.after_entry(entry, essential_only) {
            Err(e) => return Err(e.about(Item::Entry(i as u64))),
            Ok(z) => reached = z,
        }
        next = past;
    }
    Ok(reached)
}
