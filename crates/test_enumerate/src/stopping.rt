// Robust's answer, from all paths in the ranking order in column r: P1, P2 and so on stand at the indices 0, 1
// and so on.
use super::costs::Costs;
use super::deviations::{Measure, deviation, regret};
use super::paths::{Path, Row};

// Robust's answer: the route with its measure, the count of paths, and the floor, if the answer is open.
#[derive(Clone, Copy)]
pub struct Choice {
    pub route: Row,
    pub measure: Measure,
    pub count: usize,
    pub floor: Option<u64>,
}

fn figure_of(path: &Path, bests: Costs) -> u64 {
    regret(path.costs, bests).figure
}

// The earliest path with the least figure.
fn least(paths: &[Path], bests: Costs) -> Option<Path> {
    paths
        .iter()
        .min_by_key(|path| figure_of(path, bests))
        .copied()
}

// Whether the deviation in r of P(j+1) is at least Bj.
fn stops(r: u32, paths: &[Path], bests: Costs, j: usize) -> bool {
    let Some((first, [next, ..])) = paths.split_at_checked(j) else {
        return false;
    };
    let floor = deviation(r, next.costs, bests);
    least(first, bests).is_some_and(|path| figure_of(&path, bests) <= floor)
}

// J: the smallest j with j = N, or at which it stops.
fn needed(r: u32, paths: &[Path], bests: Costs) -> usize {
    let stop = (1..paths.len()).find(|&j| stops(r, paths, bests, j));
    stop.unwrap_or(paths.len())
}

// An answer that counts these paths.
fn counted(paths: &[Path], bests: Costs, floor: Option<u64>) -> Option<Choice> {
    let best = least(paths, bests)?;
    let route = best.row;
    let measure = regret(best.costs, bests);
    Some(Choice {
        route,
        measure,
        count: paths.len(),
        floor,
    })
}

// Robust with column r and K, if there is a path.
pub fn robust(r: u32, k: usize, paths: &[Path], bests: Costs) -> Option<Choice> {
    let j = needed(r, paths, bests);
    match paths.get(k) {
        Some(next) if k < j => {
            let floor = deviation(r, next.costs, bests);
            counted(&paths[..k], bests, Some(floor))
        }
        _ => counted(paths.get(..j)?, bests, None),
    }
}
