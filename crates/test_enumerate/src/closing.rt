// Which paths are open: in a column, and in every column.
use super::costs::{CLOSED, Costs, in_column};
use super::paths::Path;

// How many paths are open in column u.
pub fn open_count(u: u32, paths: &[Path]) -> usize {
    paths
        .iter()
        .filter(|path| in_column(path.costs, u) != CLOSED)
        .count()
}

// Whether a path with these costs is open in every column.
fn is_open(costs: Costs) -> bool {
    !costs.contains(&CLOSED)
}

// Puts the paths that are open in every column in front, and gives their number. std has no such method: a sort would
// leave them in another order, by which the tests draw paths.
pub fn open_everywhere(paths: &mut [Path]) -> usize {
    let mut count = 0;
    for i in 0..paths.len() {
        if is_open(paths[i].costs) {
            paths.swap(count, i);
            count += 1;
        }
    }
    count
}
