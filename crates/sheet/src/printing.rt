// The sheet of an image.
// Arrays have room for the largest network: the library allocates nothing, its memory is fixed.
ghost use Rattle.std.specs.Prelude.{◌≡◌, length};
ghost use Rattle.image.specs.Outcome.{after};
ghost use Rattle.image.specs.Refusals.{number_of, place_of};
ghost use Rattle.sheet.specs.Sheet.{refused_line};
ghost use Rattle.sheet.specs.Sheet.{sheet as Sheet·sheet};
ghost use Rattle.sheet.specs.Answers.{nodes_of, decided_text, Printable, printed, sheet_fault, sheet_outcome};

use super::lines::{decision_page, write_pair};
use super::words::Page;
use image::Refusal;
use image::check::check;
use network_calls::Decision;
use network_calls::robust::robust;
use std::error::Error;
use std::fmt;

// The slice for the text has fewer than 1,024 places.
#[derive(Clone, Copy, Debug, PartialEq, Eq)]
pub struct TooShort;

impl fmt::Display for TooShort {
    fn fmt<W: fmt::Write>(&self, f: &mut fmt::Formatter<W>) -> fmt::Result {
        write!(f, "the slice for the text is too short")
    }
}

impl Error for TooShort {}

// The sheet of a refusal.
fn refusal_page(row: Refusal) -> Page
    ensures { result.items ≡ refused_line (number_of row) (place_of row) }
{
    let mut page = Page::new();
    write_pair(&mut page, b"refused ", row.number(), b" at ", row.place());
    page
}

// The sheet of an answer of Robust, whose path is in a slice.
fn answer_page(path: &[u16], answer: Result<Decision, Refusal>) -> Page
    requires { Printable path.now (nodes_of answer) }
    ensures { result.items ≡ decided_text answer path.now }
{
    match answer {
        Ok(found) => {
            let nodes = found.length as usize;
            decision_page(&path[..nodes], found)
        }
        Err(row) => refusal_page(row),
    }
}

// Robust on an image as the sheet asks for it: column 1, start 1, goal n, K = 48.
fn decide(image: &[u8], path: &mut [u16], work: &mut [u32]) -> Result<Decision, Refusal>
    requires { (length path.old ≡ 200) × (length work.old ≡ 13848) }
    ensures printable { Printable path.new (nodes_of result) }
    ensures told { decided_text result path.new ≡ Sheet·sheet image.now }
{
    // `let .. else` and no `?`: the specification asks for this form (docs/THEOREMS.md)
    let answer = check(image);
    let Ok(sizes) = answer else {
        return Err(answer.unwrap_err());
    };
    robust(image, 1, 1, sizes.n, 48, path, work)
}

// REFERENCE, sections 7.1 and 7.5. A sheet has at most 1,024 bytes: a slice of so many places is long enough for
// every image.
pub fn sheet(image: &[u8], text: &mut [u8]) -> Result<u32, TooShort>
    ensures result_value { printed result ≡ sheet_outcome image.now (length text.old) }
    ensures text_after { text.new ≡ after (sheet_fault (length text.old)) (Sheet·sheet image.now) text.old }
{
    if text.len() < 1024 {
        return Err(TooShort);
    }
    let mut path = [0u16; 200];
    let mut work = [0u32; 13848];
    let answer = decide(image, &mut path, &mut work);
    let page = answer_page(&path, answer);
    let length = page.len();
    text[..length].copy_from_slice(page.as_slice());
    Ok(length as u32)
}
