// Arcs that are closed in columns, for the networks of edition 2.

// In the place of a cost: the arc is closed in that column.
pub const CLOSED: u32 = 4294967295;

// The mark, if the number drawn for a cost says so: for `share` of 100 numbers it does.
pub fn closed_or(cost: u32, share: u32, number: u32) -> u32 {
    if number / 4096 % 100 < share {
        CLOSED
    } else {
        cost
    }
}

// How many of 100 costs are marks: 0 to 60 in edition 2, and none in edition 1.
pub fn share_of(edition: u32, number: u32) -> u32 {
    if edition == 2 { number % 61 } else { 0 }
}
