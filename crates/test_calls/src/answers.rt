// The answer of a call as numbers: its values, or the refusal's number and place.
use column_calls::Path;
use image::{Refusal, Sizes};
use network_calls::{Decision, Measure};
use test_fixtures::plain_image::Header;

// The values that a call gave, filled up with 0, or a refusal's number and place.
pub type Answer = Result<[u32; 6], (u32, u32)>;

pub fn refusal(number: u32, place: u32) -> Answer {
    Err((number, place))
}

// Build's result, a length in bytes, Rank's, a number of paths, or an event's, a number of closed roads.
pub fn single(value: u32) -> Answer {
    Ok([value, 0, 0, 0, 0, 0])
}

// Check's and Unpack's result: n, m, k and the edition.
pub fn sizes(header: Header, m: u32) -> Answer {
    Ok([header.n, m, header.k, header.edition, 0, 0])
}

// Shortest's result, a length and a cost, or Regret's, a figure and a worst column.
pub fn pair(first: u32, second: u32) -> Answer {
    Ok([first, second, 0, 0, 0, 0])
}

// Robust's result where it is settled, or Search's: the length, the figure, the worst column, and the count of
// paths or of arcs tried.
pub fn settled(length: u32, figure: u32, worst: u32, count: u32) -> Answer {
    Ok([length, figure, worst, count, 0, 0])
}

// Robust's result where it is open: the same, a 1 and the floor. The 1 tells a floor of 0 from none, as the values are
// numbers.
pub fn left_open(length: u32, figure: u32, worst: u32, count: u32, floor: u32) -> Answer {
    Ok([length, figure, worst, count, 1, floor])
}

// Label's result, which has no values.
pub fn written() -> Answer {
    pair(0, 0)
}

// The edition, n and k of an image that was taken.
pub fn header_of(given: Sizes) -> Header {
    Header {
        edition: given.edition,
        n: given.n,
        k: given.k,
    }
}

// The result of a call as an answer. The replies of c_replies are the like for C: this is written apart from them, as
// all that the tests hold the library to.
pub trait Values {
    fn answer(self) -> Answer;
}

impl Values for () {
    fn answer(self) -> Answer {
        written()
    }
}

impl Values for u32 {
    fn answer(self) -> Answer {
        single(self)
    }
}

impl Values for Sizes {
    fn answer(self) -> Answer {
        sizes(header_of(self), self.m)
    }
}

impl Values for Path {
    fn answer(self) -> Answer {
        pair(self.length, self.cost)
    }
}

impl Values for Measure {
    fn answer(self) -> Answer {
        pair(self.figure, self.worst)
    }
}

impl Values for Decision {
    fn answer(self) -> Answer {
        match self.floor {
            None => settled(self.length, self.figure, self.worst, self.count),
            Some(floor) => left_open(self.length, self.figure, self.worst, self.count, floor),
        }
    }
}

// Find's result: 1 and the index of the arc, or 0 and 0 if there is none, and the number of looks.
pub fn found(index: Option<u32>, looks: u32) -> Answer {
    match index {
        Some(index) => Ok([1, index, looks, 0, 0, 0]),
        None => Ok([0, 0, looks, 0, 0, 0]),
    }
}

impl Values for arc_calls::Found {
    fn answer(self) -> Answer {
        found(self.index, self.looks)
    }
}

impl Values for search_calls::Found {
    fn answer(self) -> Answer {
        settled(self.length, self.figure, self.worst, self.tried)
    }
}

// The answer of a call, from its result.
pub fn answer_of<T: Values>(given: Result<T, Refusal>) -> Answer {
    match given {
        Ok(result) => result.answer(),
        Err(row) => refusal(row.number(), row.place()),
    }
}
