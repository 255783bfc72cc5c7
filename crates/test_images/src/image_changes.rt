// Network S's image with fields changed, cut short or made longer, and with each byte changed: what
// Check and Unpack say of it.
use super::image_calls::{note_image, note_refused_image};
use std::io;
use test_calls::answers::refusal;
use test_fixtures::case_images::network_s;
use test_fixtures::networks::s_image;
use test_fixtures::report::Report;

// Each row: the edition of network S's image; an offset and a number of two bytes that is put there,
// the same once more; and the number and place of the refusal.
const CHANGED_FIELDS: [[u16; 7]; 34] = [
    [1, 0, 7, 0, 7, 2, 0], // edition
    [1, 0, 0, 0, 0, 2, 0],
    [1, 0, 257, 0, 257, 2, 0],
    [1, 2, 0, 2, 0, 3, 0], // n
    [1, 2, 1, 2, 1, 3, 0],
    [1, 2, 201, 2, 201, 3, 0],
    [1, 2, 260, 2, 260, 3, 0],
    [1, 4, 1001, 4, 1001, 3, 0], // m
    [1, 6, 0, 6, 0, 3, 0], // k
    [1, 6, 9, 6, 9, 3, 0],
    [1, 4, 4, 4, 4, 4, 0], // m and k in range, and not those of the offsets
    [1, 6, 1, 6, 1, 4, 0],
    [1, 8, 25, 8, 25, 4, 0], // offset of the arcs
    [1, 10, 1, 10, 1, 4, 0],
    [1, 12, 24, 12, 24, 4, 0], // offset of the costs
    [1, 14, 1, 14, 1, 4, 0],
    [1, 16, 85, 16, 85, 4, 0], // total length
    [1, 18, 1, 18, 1, 4, 0],
    [1, 20, 1, 20, 1, 4, 0], // reserved
    [1, 22, 256, 22, 256, 4, 0],
    [1, 24, 0, 24, 0, 6, 0], // arcs
    [1, 38, 5, 38, 5, 6, 3],
    [1, 34, 2, 34, 2, 7, 2],
    [1, 30, 2, 30, 2, 8, 1],
    [1, 44, 16961, 46, 15, 9, 0], // a cost of 1,000,001: 15 * 65,536 + 16,961
    [1, 80, 16961, 82, 15, 9, 9],
    [1, 0, 7, 2, 1, 2, 0], // two changes: the lower number is given
    [1, 2, 1, 20, 1, 3, 0],
    [1, 20, 1, 24, 0, 4, 0],
    [1, 24, 0, 46, 99, 6, 0],
    [1, 30, 2, 32, 0, 8, 1], // arc 1 not above arc 0, arc 2 out of range
    [1, 26, 1, 30, 0, 7, 0],
    [1, 24, 0, 26, 0, 6, 0], // arc 0→0
    [1, 62, 99, 82, 99, 9, 4],
];

// Changes one byte.
fn put(image: &mut [u8], at: usize, byte: u8) {
    if let Some(place) = image.get_mut(at) {
        *place = byte;
    }
}

// Changes a number of two bytes.
fn put16(image: &mut [u8], at: u16, number: u16) {
    let [low, high] = number.to_le_bytes();
    put(image, at as usize, low);
    put(image, at as usize + 1, high);
}

// Network S's image of an edition, with two numbers of two bytes changed: offset and number of each.
pub fn changed_s(edition: u16, changes: [u16; 4]) -> [u8; 84] {
    let mut image = network_s();
    put16(&mut image, 0, edition);
    put16(&mut image, changes[0], changes[1]);
    put16(&mut image, changes[2], changes[3]);
    image
}

fn note_changed_fields(report: Report, row: [u16; 7]) -> Report {
    let [edition, at, content, next_at, next_content, number, place] = row;
    let image = changed_s(edition, [at, content, next_at, next_content]);
    note_refused_image(report, &image, refusal(u32::from(number), u32::from(place)))
}

// Each row of a table of changed fields.
pub fn note_changed_rows(rows: &[[u16; 7]]) -> Report {
    let mut report = Report::new();
    for row in rows {
        report = note_changed_fields(report, *row);
    }
    report
}

fn changed_fields(rt: &impl Print) -> io::Result<()> {
    note_changed_rows(&CHANGED_FIELDS).print(rt, "changed fields")
}

// The first `length` bytes of the image, or the image with zeros behind it; but not the image
// itself.
fn note_length(report: Report, image: &[u8], length: usize) -> Report {
    if image.len() < length || length == 84 {
        return report;
    }
    let number = if length < 24 { 1 } else { 5 };
    note_refused_image(report, &image[..length], refusal(number, 0))
}

// Each length up to that of the slice.
pub fn note_lengths(image: &[u8]) -> Report {
    let mut report = Report::new();
    for length in 0..image.len() {
        report = note_length(report, image, length);
    }
    report
}

fn other_lengths(rt: &impl Print) -> io::Result<()> {
    note_lengths(&s_image::<120>()).print(rt, "other lengths")
}

// The byte at an offset changed to each other value.
fn note_changed_byte(mut report: Report, image: &mut [u8], at: usize) -> Report {
    let own = image.get(at).copied().unwrap_or(0);
    for step in 1..=255u8 {
        put(image, at, own.wrapping_add(step));
        report = note_image(report, image);
    }
    put(image, at, own);
    report
}

// Each byte of an image changed.
pub fn note_changed_bytes(image: &mut [u8]) -> Report {
    let mut report = Report::new();
    for at in 0..image.len() {
        report = note_changed_byte(report, image, at);
    }
    report
}

fn changed_bytes(rt: &impl Print) -> io::Result<()> {
    note_changed_bytes(&mut network_s()).print(rt, "changed bytes")
}

pub fn run(rt: &impl Print) -> io::Result<()> {
    changed_fields(rt)?;
    other_lengths(rt)?;
    changed_bytes(rt)
}
