// The listing program: "A program reads an image of at most 65,536 bytes from standard input and prints the volume line .., then one line per label". One byte
// more is read, which tells a longer input. All that it prints is what `lines::list` puts into the buffer.
#![tactic(auto)]

use input::read_full;
use std::io;

fn main(rt: HostRuntime) -> io::Result<()> {
    let mut image = [0u8; 65537];
    let size = read_full(&mut rt.stdin(), &mut image)?;
    let mut text = [0u8; 8192];
    let length = lines::list(&image[..size], &mut text);
    rt.write_all(&text[..length])
}
