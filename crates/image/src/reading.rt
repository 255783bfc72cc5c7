// Lists of numbers read from an image's bytes.
ghost use Rattle.std.specs.Prelude.{◌≡◌, map, ◌++◌, ◌*◌, ◌≤◌, length, drop};
ghost use Rattle.image.specs.Bytes.{decode};

use super::bytes::Word;

// The first `count` numbers, over the beginning of `words`: a slice that is lent may be longer, and that the rest is kept
// is said here once, where each caller that lent the part alone would have to say it.
pub fn read_words<W: Word>(source: &[u8], count: usize, words: &mut [W])
    requires { (W.BYTES * count ≤ length source.now) × (count ≤ length words.old) }
    ensures { map W.value words.new ≡ decode W.BYTES count source.now ++ drop count (map W.value words.old) }
{
    for (i, word) in words[..count].iter_mut().enumerate() {
        *word = W::read(source, W::BYTES * i);
    }
}
