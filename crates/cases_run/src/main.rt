// Runs document 01's cases that are not starred: clap 3/2 and 0/1 of a picture 64 wide, and fill red.
#![tactic(auto)]

use fill::Nclx;
use sizes::Clap;
use std::io;

// A clap of the width n / d about the centre: its left edge, or why it is refused.
fn show_clap(rt: &impl Print, n: u32, d: u32) -> io::Result<()> {
    let clap = Clap {
        width_n: n,
        width_d: d,
        height_n: 1,
        height_d: 1,
        horiz_off_n: 0,
        horiz_off_d: 1,
        vert_off_n: 0,
        vert_off_d: 1,
    };
    match clap.resolve(64, 1) {
        Ok(crop) => println!(rt; "clap {n}/{d}: {}", crop.rect.x),
        Err(e) => println!(rt; "clap {n}/{d}: refused {}", e.reason.number()),
    }
}

// Red at depth 8, matrix 6, full range: its three samples.
fn show_red(rt: &impl Print) -> io::Result<()> {
    let nclx = Nclx {
        matrix: 6,
        full_range: true,
    };
    match fill::fill_to_ycbcr(65535, 0, 0, 8, Some(nclx)) {
        Ok(s) => println!(rt; "fill red: {} {} {}", s.y, s.cb, s.cr),
        Err(e) => println!(rt; "fill red: refused {}", e.reason.number()),
    }
}

fn main(rt: HostRuntime) -> io::Result<()> {
    show_clap(&rt, 3, 2)?;
    show_clap(&rt, 0, 1)?;
    show_red(&rt)
}
