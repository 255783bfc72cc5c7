// Words and numbers, written at the end of a page.
ghost use Rattle.sheet.specs.Text.{decimal, Grown};

use arrayvec::ArrayVec;
use itoa::Buffer;

// The text of a sheet, which has at most so many bytes. Not by `write!`: std's contract of it tells what
// is written if it succeeds, but never that it does, and a sheet must.
pub type Page = ArrayVec<u8, 1024>;

// The bytes of a word. This and each line say what is written if it fits, and so ask for no room: that
// a whole sheet fits is shown where its page is done.
pub fn write_word(page: &mut Page, word: &[u8])
    ensures { Grown page.old.items word.now page.new.items }
{
    let _fits = page.try_extend_from_slice(word);
}

// The decimal digits of a number, with no zero in front.
pub fn write_number(page: &mut Page, x: u32)
    ensures { Grown page.old.items (decimal x) page.new.items }
{
    let mut digits = Buffer::new();
    write_word(page, digits.format(x).as_bytes());
}
