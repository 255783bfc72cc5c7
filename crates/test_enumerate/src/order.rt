// The ranking order in a column, and best and labels by it. A path that is closed in the column has the mark as its
// cost there, which is above every cost: it comes behind all that are open.
use super::costs::{CLOSED, Costs, in_column};
use super::deviations::regret;
use super::paths::{Path, Row};

// The label of a node from which the goal cannot be reached: no path from it is open. It is a number, as in Label's
// list, to which the labels are held.
pub const UNREACHED: u64 = 4294967295;

// What the ranking order in column u goes by: the cost, and then the node list, in which the first differing
// place decides, smaller node first.
fn place_in(u: u32, path: &Path) -> (u64, Row) {
    (in_column(path.costs, u), path.row)
}

// The path that comes before all others in column u.
fn first(u: u32, paths: &[Path]) -> Option<Path> {
    paths.iter().min_by_key(|path| place_in(u, path)).copied()
}

// The same, if it is open there.
pub fn first_open(u: u32, paths: &[Path]) -> Option<Path> {
    let path = first(u, paths)?;
    if in_column(path.costs, u) == CLOSED {
        return None;
    }
    Some(path)
}

// Puts the paths in the ranking order in column u.
pub fn rank(u: u32, paths: &mut [Path]) {
    paths.sort_unstable_by_key(|path| place_in(u, path));
}

// The first in node order of all paths with the least figure.
pub fn first_least(paths: &[Path], bests: Costs) -> Option<Path> {
    paths
        .iter()
        .min_by_key(|path| (regret(path.costs, bests).figure, path.row))
        .copied()
}

// best(u) for each of the columns 1 to k, from all paths from start to goal: the cost of the first
// in the ranking order; or the mark, if no path is open in u.
pub fn bests(k: u32, paths: &[Path]) -> Costs {
    let mut result = [0u64; 8];
    for (best, u) in result.iter_mut().zip(1..=k) {
        *best = first(u, paths).map_or(0, |path| in_column(path.costs, u));
    }
    result
}

// The label of a node in each of the columns 1 to k, from all paths from it to the goal.
pub fn labels(k: u32, node: u16, goal: u16, paths: &[Path]) -> Costs {
    if node == goal {
        return [0; 8];
    }
    if paths.is_empty() {
        return [UNREACHED; 8];
    }
    bests(k, paths)
}
