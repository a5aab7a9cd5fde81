// The texts of a sentence, in German and English.
ghost use Rattle.std.specs.Prelude.{◌≡◌, ◌<◌, ◌≤◌, length};
ghost use Rattle.sentence.specs.inner.Texts.{last_number, last_sort, reason_text_of, sort_text_of, told_of};

// The same in both languages.
struct Texts {
    german: &'static str,
    english: &'static str,
}

// A row in UTF-8, in German (0) or English (1).
fn told(texts: &'static [Texts], row: usize, language: u8) -> &'static [u8]
    requires { row < length texts.now }
    ensures { result.now ≡ told_of texts.now row language }
{
    if language == 0 {
        texts[row].german.as_bytes()
    } else {
        texts[row].english.as_bytes()
    }
}

// The words of an item's sort: none, a record of the tray, an entry of the chain.
static SORTS: [Texts; 3] = [
    Texts {
        german: "",
        english: "",
    },
    Texts {
        german: " (Bild ",
        english: " (record ",
    },
    Texts {
        german: " (Eintrag ",
        english: " (entry ",
    },
];

// The reasons, from that of number 1 on.
static REASONS: [Texts; 19] = [
    Texts {
        german: "Die Bildbeschreibung ist leer oder zu kurz",
        english: "The picture's description is empty or too short",
    },
    Texts {
        german: "Die Bildbeschreibung hat eine andere Version als 0",
        english: "The picture's description has a version other than 0",
    },
    Texts {
        german: "Eine Seite des Bildes ist 0 Pixel lang",
        english: "A side of the picture is 0 pixels long",
    },
    Texts {
        german: "Das Bild ist zu groß, oder es sind zu viele Bilder oder Einträge",
        english: "The picture is too large, or there are too many records or entries",
    },
    Texts {
        german: "Die Daten sind beschädigt oder falsch aufgebaut",
        english: "The data are damaged or badly formed",
    },
    Texts {
        german: "Die Farbtiefe ist kleiner als 8 oder größer als 16 Bit",
        english: "The colour depth is below 8 or above 16 bits",
    },
    Texts {
        german: "In einem Bruch steht eine Null, wo keine stehen darf",
        english: "A fraction has a zero where none may stand",
    },
    Texts {
        german: "Eine Größe oder ein Rand ist keine ganze Zahl von Pixeln",
        english: "A size or an edge is not a whole number of pixels",
    },
    Texts {
        german: "Der Ausschnitt ist leer oder ragt über das Bild hinaus, oder seine Ränder stimmen nicht",
        english: "The crop is empty or reaches beyond the picture, or its margins are wrong",
    },
    Texts {
        german: "Eine Seite wäre nach dem Skalieren zu lang",
        english: "A side would be too long after scaling",
    },
    Texts {
        german: "Eine Anzahl stimmt nicht, oder einen Index gibt es nicht",
        english: "A count is wrong, or an index does not exist",
    },
    Texts {
        german: "Die Kacheln decken die Leinwand nicht ganz ab",
        english: "The tiles do not cover the whole canvas",
    },
    Texts {
        german: "Eine Kachel ist nicht so groß wie die erste",
        english: "A tile is not the same size as the first one",
    },
    Texts {
        german: "Das Farbformat oder die Farbtiefe ist anders als beim ersten Bild",
        english: "The colour format or the colour depth is not that of the first picture",
    },
    Texts {
        german: "Es fehlt ein Bild oder eine Kachel",
        english: "A picture or a tile is missing",
    },
    Texts {
        german: "Ein Alphawert liegt über dem höchsten erlaubten Wert",
        english: "An alpha value is above the highest one allowed",
    },
    Texts {
        german: "Ein bereitgestellter Puffer ist zu kurz",
        english: "A lent buffer is too short",
    },
    Texts {
        german: "Zu dieser Stelle lässt sich kein Bildpunkt nennen, weil sie außerhalb liegt oder weil Alpha oder eine Skalierung es verhindert",
        english: "No spot can be named for this place, because it lies outside or because alpha or scaling prevents it",
    },
    Texts {
        german: "Ein Raster hat weniger als 1 oder mehr als 256 Zeilen oder Spalten",
        english: "A grid has fewer than 1 or more than 256 rows or columns",
    },
];

// The word of an item's sort.
pub(crate) fn sort_text(sort: u8, language: u8) -> &'static [u8]
    requires { sort ≤ last_sort }
    ensures { result.now ≡ sort_text_of sort language }
{
    told(&SORTS, sort as usize, language)
}

// The reason of a number.
pub(crate) fn reason_text(number: u32, language: u8) -> &'static [u8]
    requires { (1 ≤ number) × (number ≤ last_number) }
    ensures { result.now ≡ reason_text_of number language }
{
    told(&REASONS, number as usize - 1, language)
}
