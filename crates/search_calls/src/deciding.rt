// Rows 15 and 19, and the answer where neither applies.
// Arrays have room for the largest network: the library allocates nothing, its memory is fixed.
ghost use Rattle.std.specs.Prelude.{◌≡◌, ◌≤◌, length};
ghost use Rattle.terms.specs.Network.{common};
ghost use Rattle.image.specs.Outcome.{outcome, after};
ghost use Rattle.image.specs.Answers.{answer};
ghost use Rattle.loading.specs.Accepted.{Ends};
ghost use Rattle.loading.specs.Networks.{net};
ghost use Rattle.measuring.specs.Networks.{network_of};
ghost use Rattle.network_calls.specs.Held.{Reached};
ghost use Rattle.search_calls.specs.Answers.{found_list};
ghost use Rattle.search_calls.specs.Calls.{limit_of, decided_rows, search_path, search_values};

use super::tables::search_image;
use descent::Task;
use image::Refusal;
use labels::FAR;
use loading::{Network, label_nodes};
use measuring::Columns;
use network_calls::{load_columns, measure_path};
use outcomes::write_path;

// What Search gives: the length, figure and worst column of the path found, and how many arcs were tried.
#[derive(Clone, Copy, Debug, PartialEq, Eq)]
pub struct Found {
    pub length: u32,
    pub figure: u32,
    pub worst: u32,
    pub tried: u32,
}

// Row 19, and the answer where it does not apply. The columns have the arcs that are open in every column; a
// path that is open in every column goes from start to goal.
fn answer(
    network: &Network<'_>,
    task: Task,
    columns: &Columns<'_>,
    bests: &mut [u64],
    best: &mut [u16],
    path: &mut [u16],
) -> Result<Found, Refusal>
    requires reached { Reached (net network.now) task.start task.goal }
    requires common { network_of columns.now ≡ common (net network.now) }
    requires bests_long { length bests.old ≡ network.now.sizes.k }
    requires best_long { network.now.sizes.n ≤ length best.old }
    requires path_long { network.now.sizes.n ≤ length path.old }
    ensures result_value { answer found_list result ≡ outcome (limit_of network.now.image.now task.start task.goal task.limit) (search_values network.now.image.now task.start task.goal) }
    ensures path_after { path.new ≡ after (limit_of network.now.image.now task.start task.goal task.limit) (search_path network.now.image.now task.start task.goal) path.old }
{
    let run = search_image(network, task, best);
    // no `map_err(..)?`: a trial of it ended with its proof not closed
    let Ok(held) = run else {
        return Err(Refusal::TooManyArcs(task.limit));
    };
    let start = usize::from(task.start);
    let route = &best[..held.length];
    let found = measure_path(network, columns, start, task.goal, route, bests);
    write_path(best, held.length, path);
    Ok(Found {
        length: held.length as u32,
        figure: found.figure,
        worst: found.worst,
        tried: held.tried as u32,
    })
}

// Row 15 before it: the start's label over the arcs that are open in every column. It is the same in each
// column whether there is one.
pub fn decide(
    network: &Network<'_>,
    start: u32,
    goal: u32,
    limit: u32,
    path: &mut [u16],
) -> Result<Found, Refusal>
    requires ends { Ends (net network.now).nodes start goal }
    requires path_long { (net network.now).nodes ≤ length path.old }
    ensures result_value { answer found_list result ≡ outcome (decided_rows network.now.image.now start goal limit) (search_values network.now.image.now start goal) }
    ensures path_after { path.new ≡ after (decided_rows network.now.image.now start goal limit) (search_path network.now.image.now start goal) path.old }
{
    let mut star = [0u16; 3403];
    let mut costs = [0u32; 8000];
    let mut labels = [0u64; 201];
    let mut bests = [0u64; 8];
    let mut best = [0u16; 200];
    let columns = load_columns(network, &[], &mut star, &mut costs);
    let labels = &mut labels[..columns.nodes + 1];
    label_nodes(&columns.column(1), goal as usize, labels);
    // FAR and no None: see labels
    if labels[start as usize] == FAR {
        return Err(Refusal::NoPath);
    }
    let task = Task {
        start: start as u16,
        goal: goal as usize,
        limit,
    };
    let bests = &mut bests[..columns.count];
    answer(network, task, &columns, bests, &mut best, path)
}
