// The first paths of the ranking order in one column of an accepted image. What the three lent slices have room
// for is asked of each function: a struct over lent `&mut` slices would be taken apart again
// before they are written.
// Arrays have room for the largest network: the library allocates nothing, its memory is fixed.
ghost use Rattle.std.specs.Prelude.{◌≡◌, [], ◌∷◌, map, ◌<◌, length, take, replicate};
ghost use Rattle.terms.specs.Paths.{Route, Path, cost};
ghost use Rattle.terms.specs.Ranking.{ranked};
ghost use Rattle.star.specs.Graphs.{arcs_of};
ghost use Rattle.listing.specs.Rows.{rows_of};
ghost use Rattle.image.specs.Outcome.{sound, outcome, after};
ghost use Rattle.image.specs.Answers.{answer, one_number};
ghost use Rattle.loading.specs.Networks.{net};
ghost use Rattle.outcomes.specs.Calls.{path_row, rank_of, rank_rows_of, rank_costs_of, cleared};
ghost use Rattle.column_calls.specs.Slices.{ListSlices};

use super::trip::Trip;
use candidates::{Entries, Routes};
use image::Refusal;
use labels::FAR;
use listing::{clear, write_rows};
use ranking::{Query, rank_paths};

// Writes the first paths from start to goal in a loaded column, as many as there are slots or all, and
// returns their number. The workspace is cleared.
fn list_loaded(query: &Query<'_>, work: &mut [u32], rows: &mut [u16], costs: &mut [u32]) -> usize
    requires list_slices { ListSlices query.now.graph.nodes query.now.slots rows.old costs.old work.old }
    requires costs_fit { (p : Route) → Path (arcs_of query.now.graph) query.now.start query.now.goal p → cost (arcs_of query.now.graph) p < 4294967296 }
    ensures value { result ≡ length (take query.now.slots (ranked query.now.graph.nodes (arcs_of query.now.graph) query.now.start query.now.goal)) }
    ensures rows_after { rows.new ≡ after sound (rows_of query.now.graph.nodes (take query.now.slots (ranked query.now.graph.nodes (arcs_of query.now.graph) query.now.start query.now.goal))) rows.old }
    ensures costs_after { costs.new ≡ after sound (map (cost (arcs_of query.now.graph)) (take query.now.slots (ranked query.now.graph.nodes (arcs_of query.now.graph) query.now.start query.now.goal))) costs.old }
    ensures work_after { work.new ≡ replicate (length work.old) 0 }
{
    let count = rank_paths(query, work);
    let entries = Entries {
        nodes: query.graph.nodes,
        work,
        count,
    };
    let ranked = Routes {
        entries,
        start: query.start,
    };
    write_rows(&ranked, rows, costs);
    clear(work);
    count
}

// Row 15, and the paths from the image on. Nothing is touched if there is no path.
pub fn list(
    trip: &Trip<'_>,
    wanted: u32,
    rows: &mut [u16],
    costs: &mut [u32],
    work: &mut [u32],
) -> Result<u32, Refusal>
    requires { ListSlices (net trip.now.network).nodes wanted rows.old costs.old work.old }
    ensures result_value { answer one_number result ≡ outcome (path_row trip.now.network.image.now trip.now.column trip.now.start trip.now.goal) (length (rank_of trip.now.network.image.now trip.now.column trip.now.start trip.now.goal wanted) ∷ []) }
    ensures rows_after { rows.new ≡ after (path_row trip.now.network.image.now trip.now.column trip.now.start trip.now.goal) (rank_rows_of trip.now.network.image.now trip.now.column trip.now.start trip.now.goal wanted) rows.old }
    ensures costs_after { costs.new ≡ after (path_row trip.now.network.image.now trip.now.column trip.now.start trip.now.goal) (rank_costs_of trip.now.network.image.now trip.now.column trip.now.start trip.now.goal wanted) costs.old }
    ensures work_after { work.new ≡ cleared (path_row trip.now.network.image.now trip.now.column trip.now.start trip.now.goal) work.old }
{
    let mut star_room = [0u16; 3403];
    let mut weight_room = [0u32; 1000];
    let mut label_room = [0u64; 201];
    let arcs = trip.network.sizes.m as usize;
    let places = trip.network.sizes.n as usize + 1;
    let star = &mut star_room[..3 * arcs + places + 1 + places];
    let weights = &mut weight_room[..arcs];
    let labels = &mut label_room[..places];
    let graph = trip.load(star, weights, labels);
    if labels[trip.start as usize] == FAR {
        return Err(Refusal::NoPath);
    }
    let query = Query {
        graph,
        labels,
        start: trip.start as u16,
        goal: trip.goal as usize,
        slots: wanted as usize,
    };
    let count = list_loaded(&query, work, rows, costs);
    Ok(count as u32)
}
