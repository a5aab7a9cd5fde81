// What every call shares: why it refuses.
#![tactic(auto)]

ghost use Rattle.std.specs.Prelude.{◌≡◌};
ghost use Rattle.laws.specs.Out.{own_refusal};
ghost use Rattle.laws.specs.Reason.{number_of};

// Why a call refuses: document 01's numbers and, from 19 on, document 02's.
#[derive(Clone, Copy, Debug, PartialEq, Eq)]
pub enum Reason {
    // A descriptor body is empty or cut short.
    Short,
    // A descriptor's version is not 0.
    Version,
    // A side is 0.
    Empty,
    // Above a limit.
    Limit,
    // Malformed bytes.
    Malformed,
    // A depth outside 8 to 16.
    Depth,
    // A zero term of a fraction.
    Zero,
    // A size or an edge that is no whole number.
    Fraction,
    // A rectangle outside its picture.
    Outside,
    // A scaled side above 2^32 - 1.
    Scale,
    // A tray's count or a list's length that differs, or an index outside.
    Count,
    // Tiles that do not cover the canvas.
    Cover,
    // A tile of another size.
    Tile,
    // Another chroma or depth.
    Layout,
    // No inputs, nothing placed, or a cell missing.
    Missing,
    // An alpha sample above top.
    Opacity,
    // A lent buffer that is too short.
    Room,
    // No point answer.
    Point,
    // Rows or columns of tiles outside 1 to 256 (document 02, A4).
    Tiling,
    // Of another number: no call refuses by it. `Other` of a number that has a name is not that reason, though both have the number.
    Other(u8),
}

impl Reason {
    pub fn number(self) -> u8
        ensures { result ≡ number_of self }
    {
        match self {
            Reason::Short => 1,
            Reason::Version => 2,
            Reason::Empty => 3,
            Reason::Limit => 4,
            Reason::Malformed => 5,
            Reason::Depth => 6,
            Reason::Zero => 7,
            Reason::Fraction => 8,
            Reason::Outside => 9,
            Reason::Scale => 10,
            Reason::Count => 11,
            Reason::Cover => 12,
            Reason::Tile => 13,
            Reason::Layout => 14,
            Reason::Missing => 15,
            Reason::Opacity => 16,
            Reason::Room => 17,
            Reason::Point => 18,
            Reason::Tiling => 19,
            Reason::Other(number) => number,
        }
    }
}

// The item that a refusal is about (document 02, A2), by its index from 0: a record of the tray, an entry of the chain.
#[derive(Clone, Copy, Debug, PartialEq, Eq)]
pub enum Item {
    Record(u64),
    Entry(u64),
    // One of another sort, by the sort's number and the index: no call refuses it. The index of sort 0 is not counted on behind other items.
    Other(u8, u64),
}

// Why a call refuses and, where it is an item's own refusal, which item's.
#[derive(Clone, Copy, Debug, PartialEq, Eq)]
pub struct Refusal {
    pub reason: Reason,
    pub item: Option<Item>,
}

impl Refusal {
    pub const SHORT: Refusal = Refusal {
        reason: Reason::Short,
        item: None,
    };

    pub const VERSION: Refusal = Refusal {
        reason: Reason::Version,
        item: None,
    };

    pub const EMPTY: Refusal = Refusal {
        reason: Reason::Empty,
        item: None,
    };

    pub const LIMIT: Refusal = Refusal {
        reason: Reason::Limit,
        item: None,
    };

    pub const MALFORMED: Refusal = Refusal {
        reason: Reason::Malformed,
        item: None,
    };

    pub const DEPTH: Refusal = Refusal {
        reason: Reason::Depth,
        item: None,
    };

    pub const ZERO: Refusal = Refusal {
        reason: Reason::Zero,
        item: None,
    };

    pub const FRACTION: Refusal = Refusal {
        reason: Reason::Fraction,
        item: None,
    };

    pub const OUTSIDE: Refusal = Refusal {
        reason: Reason::Outside,
        item: None,
    };

    pub const SCALE: Refusal = Refusal {
        reason: Reason::Scale,
        item: None,
    };

    pub const COUNT: Refusal = Refusal {
        reason: Reason::Count,
        item: None,
    };

    pub const COVER: Refusal = Refusal {
        reason: Reason::Cover,
        item: None,
    };

    pub const TILE: Refusal = Refusal {
        reason: Reason::Tile,
        item: None,
    };

    pub const LAYOUT: Refusal = Refusal {
        reason: Reason::Layout,
        item: None,
    };

    pub const MISSING: Refusal = Refusal {
        reason: Reason::Missing,
        item: None,
    };

    pub const OPACITY: Refusal = Refusal {
        reason: Reason::Opacity,
        item: None,
    };

    pub const ROOM: Refusal = Refusal {
        reason: Reason::Room,
        item: None,
    };

    pub const POINT: Refusal = Refusal {
        reason: Reason::Point,
        item: None,
    };

    pub const TILING: Refusal = Refusal {
        reason: Reason::Tiling,
        item: None,
    };

    // The same as the own refusal of an item.
    pub fn about(self, item: Item) -> Refusal
        ensures { result ≡ own_refusal self.reason item }
    {
        Refusal {
            reason: self.reason,
            item: Some(item),
        }
    }
}
