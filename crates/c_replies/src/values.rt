// What the calls give, as numbers.
ghost use Rattle.std.specs.Prelude.{◌≡◌, ◌-◌, ℕ, List, ◌++◌, length, replicate};
ghost use Rattle.image.specs.Answers.{size_list, one_number, no_values};
ghost use Rattle.column_calls.specs.Answers.{path_list};
ghost use Rattle.network_calls.specs.Answers.{measure_list, decision_list};
ghost use Rattle.arc_calls.specs.Answers as arcs;
ghost use Rattle.search_calls.specs.Answers as search;

use column_calls::Path;
use image::Sizes;
use network_calls::{Decision, Measure};

// The result of a call, as the numbers that stand for it: six at most, as many as a Reply has room for.
pub trait Values {
    ghost values: { Self → List ℕ };

    // The numbers, with 0 in each place that is not used.
    fn in_reply(self) -> [u32; 6]
        ensures { result ≡ values self ++ replicate (6 - length (values self)) 0 };
}

impl Values for () {
    ghost values = { no_values };

    fn in_reply(self) -> [u32; 6] {
        [0; 6]
    }
}

impl Values for u32 {
    ghost values = { one_number };

    fn in_reply(self) -> [u32; 6] {
        [self, 0, 0, 0, 0, 0]
    }
}

impl Values for Sizes {
    ghost values = { size_list };

    fn in_reply(self) -> [u32; 6] {
        [self.n, self.m, self.k, self.edition, 0, 0]
    }
}

impl Values for Path {
    ghost values = { path_list };

    fn in_reply(self) -> [u32; 6] {
        [self.length, self.cost, 0, 0, 0, 0]
    }
}

impl Values for Measure {
    ghost values = { measure_list };

    fn in_reply(self) -> [u32; 6] {
        [self.figure, self.worst, 0, 0, 0, 0]
    }
}

// The state is 1 if the decision is settled and 2 if it is open.
impl Values for Decision {
    ghost values = { decision_list };

    fn in_reply(self) -> [u32; 6] {
        let (state, floor) = match self.floor {
            None => (1, 0),
            Some(floor) => (2, floor),
        };
        [
            self.length,
            self.figure,
            self.worst,
            self.count,
            state,
            floor,
        ]
    }
}

impl Values for arc_calls::Found {
    ghost values = { arcs.found_list };

    fn in_reply(self) -> [u32; 6] {
        match self.index {
            Some(index) => [1, index, self.looks, 0, 0, 0],
            None => [0, 0, self.looks, 0, 0, 0],
        }
    }
}

impl Values for search_calls::Found {
    ghost values = { search.found_list };

    fn in_reply(self) -> [u32; 6] {
        [self.length, self.figure, self.worst, self.tried, 0, 0]
    }
}
