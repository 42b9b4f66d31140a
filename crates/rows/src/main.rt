// Prints what an image on standard input holds, or what is wrong with it.
#![tactic(auto)]

use image::header::MOST_BYTES;
use listing::{MOST_TEXT, list};
use std::alloc::Global;
use std::io;
use std::io::{Read, Write};

// Reads one byte more than an image can have, so that a longer input is seen to be too long.
fn run<R: Read + Drop, W: Write>(heap: Global, input: R, output: &mut W) -> io::Result<()> {
    let mut image = Vec::new(heap);
    input.take(MOST_BYTES as u64 + 1).read_to_end(&mut image)?;
    let mut text = vec![in heap; 0; MOST_TEXT]?;
    // Every listing fits.
    let Some(end) = list(image.as_slice(), text.as_mut_slice()) else {
        unreachable()
    };
    text.truncate(end);
    output.write_all(text.as_slice())
}

fn main(rt: HostRuntime) -> io::Result<()> {
    run(rt.alloc(), rt.stdin(), &mut rt.stdout())
}

#[cfg(test)]
mod tests;
