// Reads a picture's width and height and a chain from standard input, and prints the size after each entry (document 01, "Steps
// program"). No input's text is longer than 11,287 bytes, and none depends on bytes past the first 12,816.
#![tactic(auto)]

ghost use Rattle.std.specs.Prelude.{◌≤◌, IfOk, length};

use std::io;
use std::io::Read;

// Reads until `buf` is full or the input ends, and returns how many bytes it put at the start of `buf`.
fn read_full<R: Read>(input: &mut R, buf: &mut [u8]) -> io::Result<usize>
    ensures { IfOk result (λ n. n ≤ length buf.new) }
{
    let mut done: usize = 0;
    while done < buf.len() {
        let n = input.read(&mut buf[done..])?;
        if n == 0 {
            break;
        }
        done += n;
    }
    Ok(done)
}

fn main(rt: HostRuntime) -> io::Result<()> {
    let mut input = [0u8; 16384];
    let mut text = [0u8; 16384];
    let n = read_full(&mut rt.stdin(), &mut input)?;
    let length = steps_text::steps_text(&input[..n], &mut text).unwrap();
    rt.write_all(&text[..length])
}
