// Reads a network image from standard input and prints its sheet: the nodes of the route, its
// figure and worst column, the count and the state; or the number and the place of a refusal.
//
// No image is longer than 36,024 bytes. Of a longer input the first 36,025 bytes are read, which
// are refused like any image whose length isn't its total.
// Arrays have room for the largest network: the library allocates nothing, its memory is fixed.
#![tactic(auto)]

use arrayvec::ArrayVec;
use sheet::sheet;
use std::io;
use std::io::{Read, Write};

// The bytes of the input that are read at most.
const IMAGE_PLACES: usize = 36025;

// Prints the sheet of an image, by way of a slice that is long enough.
fn print(rt: &impl Print, image: &[u8], text: &mut [u8]) -> io::Result<()> {
    if let Ok(length) = sheet(image, text) {
        let end = length as usize;
        io::writer(rt).write_all(&text[..end])?;
    }
    Ok(())
}

fn main(rt: HostRuntime) -> io::Result<()> {
    let mut image: ArrayVec<u8, IMAGE_PLACES> = ArrayVec::new();
    let mut text = [0u8; 1024];
    io::copy(&mut rt.reader().take(IMAGE_PLACES as u64), &mut image)?;
    print(&rt, image.as_slice(), &mut text)
}
