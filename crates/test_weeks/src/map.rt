// The map of closed arcs, read and written by halving and doubling.
use test_fixtures::numbers::count;

// The places of the map.
const PLACES: usize = 1024;

// Whether an arc is closed: its digit is 1. Beyond its end the map closes nothing.
pub fn is_closed(words: [u64; 16], arc: usize) -> bool {
    if PLACES <= arc {
        return false;
    }
    let mut rest = words[arc / 64];
    for _ in 0..arc % 64 {
        rest /= 2;
    }
    rest % 2 == 1
}

// How many of the first m arcs are closed.
pub fn closed_count(words: [u64; 16], m: usize) -> u32 {
    let closed = (0..m).filter(|&arc| is_closed(words, arc)).count();
    count(closed)
}

// Two to the power of a place, by doubling: std's shift is what the library goes by.
fn power(place: usize) -> u64 {
    let mut value = 1u64;
    for _ in 0..place {
        value = value.wrapping_add(value);
    }
    value
}

// The map with the other digit for an arc.
pub fn turned(words: [u64; 16], arc: usize) -> [u64; 16] {
    let mut next = words;
    if PLACES <= arc {
        return next;
    }
    let at = arc / 64;
    let word = words[at];
    next[at] = if is_closed(words, arc) {
        word.wrapping_sub(power(arc % 64))
    } else {
        word.wrapping_add(power(arc % 64))
    };
    next
}
