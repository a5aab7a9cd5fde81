// Prints the text of stored inputs: forms that are taken, each refusal, 256 entries and 257.
#![tactic(auto)]

use std::io;

// The names of inputs, and their bytes.
static CASES: [(&str, &[u8]); 41] = [
    // Chains that are taken: the empty one, one of each kind in turn, angles and axes above a turn, the most pixels, an unchanged size with
    // a side above 2^26.
    ("empty chain", b"\x06\x04\x00"),
    (
        "every kind",
        b"\x40\x30\x05\x00\x01\x01\x00\x3e\x01\x18\x01\x00\x01\xf4\xff\xff\xff\x0f\x01\x02\x01\x01\x03\x00\x00\x04\x01\x01\x02\x03\x02",
    ),
    (
        "angles 2, 3 and 255, axis 255",
        b"\x06\x04\x04\x02\x00\x02\x02\x00\x03\x02\x01\xff\x01\x03\x00\xff\x01",
    ),
    (
        "the most pixels",
        b"\x80\x80\x02\x80\x80\x02\x01\x03\x00\x00",
    ),
    (
        "unchanged above 2^26",
        b"\x80\x80\x80\x40\x01\x01\x04\x00\x07\x07\x01\x01",
    ),
    // Input that is cut short, or goes on.
    ("no bytes", b""),
    ("width alone", b"\x06"),
    ("no count", b"\x06\x04"),
    ("entry missing", b"\x06\x04\x01"),
    ("fields cut short", b"\x06\x04\x01\x01\x00\x40\x01"),
    ("bytes after", b"\x06\x04\x01\x00\x00\x00"),
    // Numbers that are malformed or above their range.
    ("width in a longer form", b"\x86\x00\x04\x00"),
    ("width of 2^32", b"\x80\x80\x80\x80\x10\x04\x00"),
    ("kind 5", b"\x06\x04\x01\x05\x00"),
    ("kind 258", b"\x06\x04\x01\x82\x02\x00\x01"),
    ("essential 2", b"\x06\x04\x01\x00\x02"),
    ("angle 256", b"\x06\x04\x01\x02\x00\x80\x02"),
    ("axis 256", b"\x06\x04\x01\x03\x00\x80\x02"),
    (
        "scale 65,536",
        b"\x06\x04\x01\x04\x00\x01\x01\x01\x80\x80\x04",
    ),
    // The chain comes before the sides, and its count before its entries.
    ("width 0", b"\x00\x04\x00"),
    ("height 0", b"\x06\x00\x00"),
    ("above 2^30 pixels", b"\x81\x80\x02\x80\x80\x02\x00"),
    ("width 0 and kind 5", b"\x00\x04\x01\x05\x00"),
    ("count 257 alone", b"\x06\x04\x81\x02"),
    // A refused first entry ends the text: clap.
    (
        "zero denominator",
        b"\x40\x30\x01\x01\x00\x3e\x00\x30\x01\x00\x01\x00\x01",
    ),
    (
        "zero offset denominator",
        b"\x40\x30\x01\x01\x00\x3e\x01\x30\x01\x00\x00\x00\x01",
    ),
    (
        "width 3/2",
        b"\x40\x30\x01\x01\x00\x03\x02\x30\x01\x00\x01\x00\x01",
    ),
    (
        "width 0/1",
        b"\x40\x30\x01\x01\x00\x00\x01\x30\x01\x00\x01\x00\x01",
    ),
    (
        "width above the input",
        b"\x40\x30\x01\x01\x00\x41\x01\x30\x01\x00\x01\x00\x01",
    ),
    (
        "edge of a half",
        b"\x40\x30\x01\x01\x00\x3f\x01\x30\x01\x00\x01\x00\x01",
    ),
    (
        "edge past the end",
        b"\x40\x30\x01\x01\x00\x40\x01\x30\x01\x01\x01\x00\x01",
    ),
    (
        "edge below 0",
        b"\x40\x30\x01\x01\x00\x3f\x01\x30\x01\xfd\xff\xff\xff\x0f\x02\x00\x01",
    ),
    (
        "the width axis first",
        b"\x40\x30\x01\x01\x00\x3f\x01\x30\x00\x00\x01\x00\x01",
    ),
    (
        "the height axis too",
        b"\x40\x30\x01\x01\x00\x3e\x01\x30\x00\x00\x01\x00\x01",
    ),
    // iscl, and an entry after the refused one.
    ("zero term", b"\x06\x04\x01\x04\x00\x01\x01\x00\x01"),
    (
        "side above 2^32 - 1",
        b"\x82\x80\x04\x01\x01\x04\x00\xff\xff\x03\x01\x01\x01",
    ),
    (
        "scaled above 2^30 pixels",
        b"\x80\x80\x02\x80\x80\x02\x01\x04\x00\x02\x01\x01\x01",
    ),
    (
        "side after above 2^26",
        b"\x80\x80\x80\x20\x01\x01\x04\x00\x02\x01\x01\x01",
    ),
    (
        "side before above 2^26",
        b"\x81\x80\x80\x20\x01\x01\x04\x00\x01\x02\x01\x01",
    ),
    ("rounded up", b"\x05\x05\x01\x04\x00\x01\x02\x02\x03"),
    (
        "refused second entry",
        b"\x06\x04\x03\x02\x00\x01\x04\x00\x00\x01\x01\x01\x00\x00",
    ),
];

// The name of an input, and its text.
fn show(rt: &impl Print, name: &str, input: &[u8]) -> io::Result<()> {
    let mut text = [0u8; 16384];
    println!(rt; "{name}")?;
    let length = steps_text::steps_text(input, &mut text).unwrap();
    rt.write_all(&text[..length])
}

// Entries of kind 0, two zeros each: 256 of them, and 257.
fn many(rt: &impl Print) -> io::Result<()> {
    let mut input = [0u8; 518];
    input[..4].copy_from_slice(b"\x06\x04\x80\x02");
    show(rt, "256 entries", &input[..516])?;
    input[2] = 129;
    show(rt, "257 entries", &input)
}

fn main(rt: HostRuntime) -> io::Result<()> {
    for (name, input) in CASES {
        show(&rt, name, input)?;
    }
    many(&rt)
}
