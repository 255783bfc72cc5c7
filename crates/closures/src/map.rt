// The map of closed arcs: 64 arcs a word, arc 0 the lowest bit of the first.
// Arrays have room for the largest network: the library allocates nothing, its memory is fixed.
ghost use Rattle.std.specs.Prelude.{◌≡◌, ◌%◌, ◌^◌, ◌≤◌, ◌<◌, min};
ghost use Rattle.std.specs.Int.Count.{ones};
ghost use Rattle.closures.specs.Map.{shut, turned, closed_roads};

// Whether arc i is closed. Beyond its end the map closes nothing.
pub fn is_closed(words: &[u64], i: usize) -> bool
    ensures { result ≡ shut words.now i }
{
    words
        .get(i / 64)
        .is_some_and(|word| (word >> (i % 64)) % 2 == 1)
}

// The map with the bit of arc i turned over.
pub fn turn(words: [u64; 16], i: usize) -> [u64; 16]
    requires { i < 1024 }
    ensures { result ≡ turned words i }
{
    let unit = 1u64 << (i % 64);
    let at = i / 64;
    let word = words[at];
    let mut next = words;
    if is_closed(&words, i) {
        next[at] = word - unit;
    } else {
        next[at] = word + unit;
    }
    next
}

// The number of ones in a word below a bit; in the whole word, if the bit is none of its own.
fn ones_below(word: u64, bits: usize) -> u32
    ensures { result ≡ ones (word % 2 ^ min bits 64) }
{
    if bits < 64 {
        (word % (1u64 << bits)).count_ones()
    } else {
        word.count_ones()
    }
}

// The number of closed roads: of ones in the map below bit m.
pub fn closed_roads(words: &[u64], m: usize) -> u32
    requires { m ≤ 1024 }
    ensures { (result ≡ closed_roads words.now m) × (result ≤ m) }
{
    // counted down beside the words: by their index each word's first bit would have to be multiplied out again
    let mut count = 0;
    let mut left = m;
    for &word in words {
        if left == 0 {
            return count;
        }
        count += ones_below(word, left);
        left = left.saturating_sub(64);
    }
    count
}
