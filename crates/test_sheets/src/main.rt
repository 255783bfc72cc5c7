// The tests of the sheet's text. The program prints the sheets of the images in data/, each below a
// line with the name of its file and the number of places that are lent for the text.
//
// examples/make.py makes the images, and the sheets in the file stdout that they are held to, apart
// from the library.
#![tactic(auto)]

use arrayvec::ArrayVec;
use sheet::sheet;
use std::fs::File;
use std::io;
use std::io::{Read, Write};
use std::rt::Files;
use test_fixtures::slices::{Pattern, holds};

// No image is longer than 36,024 bytes.
const IMAGE_PLACES: usize = 36025;

// The places that the sheet needs.
const TEXT_PLACES: usize = 1024;

fn print_title(rt: &impl Print, name: &str, places: usize) -> io::Result<()> {
    println!(rt; "{name} in {places} places")
}

// Prints the first `length` bytes of a slice, and a line more if another place has lost the pattern.
fn print_text(rt: &impl Print, text: &[u8], length: usize) -> io::Result<()> {
    if text.len() < length {
        return println!(rt; "longer than the slice");
    }
    let written = &text[0..length];
    io::writer(rt).write_all(written)?;
    if !holds(text, written) {
        println!(rt; "another place was changed")?;
    }
    Ok(())
}

// Prints the sheet of an image, by way of a slice that holds the pattern.
fn print_answer(rt: &impl Print, image: &[u8], text: &mut [u8]) -> io::Result<()> {
    let Ok(length) = sheet(image, text) else {
        println!(rt; "too short")?;
        return print_text(rt, text, 0);
    };
    print_text(rt, text, length as usize)
}

// Prints the title and the sheet of a file, with so many places for the text: at most `TEXT_PLACES`.
fn print_in(rt: &(impl Files + Print), name: &str, places: usize) -> io::Result<()> {
    let mut image: ArrayVec<u8, IMAGE_PLACES> = ArrayVec::new();
    let mut text = [u8::PATTERN; TEXT_PLACES];
    print_title(rt, name, places)?;
    let Some(text) = text.get_mut(..places) else {
        return Ok(());
    };
    io::copy(
        &mut File::open(rt, name)?.take(IMAGE_PLACES as u64),
        &mut image,
    )?;
    print_answer(rt, image.as_slice(), text)
}

fn print(rt: &(impl Files + Print), name: &str) -> io::Result<()> {
    print_in(rt, name, TEXT_PLACES)
}

fn print_settled(rt: &(impl Files + Print)) -> io::Result<()> {
    print(rt, "S.image")?;
    print(rt, "close.image")?;
    print(rt, "line.image")?;
    print(rt, "fan48.image")
}

fn print_open(rt: &(impl Files + Print)) -> io::Result<()> {
    print(rt, "apart.image")?;
    print(rt, "fan49.image")
}

// Every row of the refusal table that the sheet of an image can give.
fn print_refused(rt: &(impl Files + Print)) -> io::Result<()> {
    print(rt, "empty.image")?;
    print(rt, "header_cut.image")?;
    print(rt, "edition.image")?;
    print(rt, "one_node.image")?;
    print(rt, "reserved.image")?;
    print(rt, "byte_added.image")?;
    print(rt, "head_outside.image")?;
    print(rt, "arc_to_itself.image")?;
    print(rt, "arc_twice.image")?;
    print(rt, "cost_too_large.image")?;
    print(rt, "no_arcs.image")?;
    print(rt, "backward.image")
}

// Edition 2, in which an arc may be closed in a column: settled, open and refused; and what edition 1
// and any other edition refuse.
fn print_closed(rt: &(impl Files + Print)) -> io::Result<()> {
    print(rt, "S_in_edition_2.image")?;
    print(rt, "ferry.image")?;
    print(rt, "close_with_ferries.image")?;
    print(rt, "apart_with_ferries.image")?;
    print(rt, "parted.image")?;
    print(rt, "goal_closed.image")?;
    print(rt, "below_the_mark.image")?;
    print(rt, "mark_in_edition_1.image")?;
    print(rt, "edition_3.image")
}

fn print_too_short(rt: &(impl Files + Print)) -> io::Result<()> {
    print_in(rt, "S.image", 1023)?;
    print_in(rt, "S.image", 0)
}

fn main(rt: HostRuntime) -> io::Result<()> {
    print_settled(&rt)?;
    print_open(&rt)?;
    print_refused(&rt)?;
    print_closed(&rt)?;
    print_too_short(&rt)
}
