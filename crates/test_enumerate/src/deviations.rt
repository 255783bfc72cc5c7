// How far a path is from the best.
use super::costs::{Costs, in_column};

// The deviation in column u of a path with these costs: its cost less the best, which no cost is below.
pub fn deviation(u: u32, costs: Costs, bests: Costs) -> u64 {
    in_column(costs, u).saturating_sub(in_column(bests, u))
}

// A path's figure, and its worst column.
#[derive(Clone, Copy)]
pub struct Measure {
    pub figure: u64,
    pub worst: u32,
}

// The largest deviation, and the first column that has it, of a path with these costs.
pub fn regret(costs: Costs, bests: Costs) -> Measure {
    let mut figure = 0;
    let mut worst = 1;
    for u in 1..=8u32 {
        let over = deviation(u, costs, bests);
        if figure < over {
            figure = over;
            worst = u;
        }
    }
    Measure { figure, worst }
}
