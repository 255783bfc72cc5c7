// The path whose greatest regret is least, of an accepted image.
// Arrays have room for the largest network: the library allocates nothing, its memory is fixed.
ghost use Rattle.std.specs.Prelude.{◌≡◌, ◌+◌, ◌≤◌, length, replicate};
ghost use Rattle.terms.specs.Robust.{robust};
ghost use Rattle.closures.specs.Map.{without};
ghost use Rattle.ranking.specs.Ranking.{Space};
ghost use Rattle.choosing.specs.Contests.{nodes_in, answer_in};
ghost use Rattle.image.specs.Outcome.{sound, outcome, after};
ghost use Rattle.image.specs.Answers.{answer};
ghost use Rattle.network_calls.specs.Answers.{decision_list};
ghost use Rattle.outcomes.specs.Calls.{robust_of, chosen, robust_values, cleared};
ghost use Rattle.loading.specs.Accepted.{InColumn, Ends};
ghost use Rattle.loading.specs.Networks.{net};
ghost use Rattle.network_calls.specs.Held.{no_open_path, ChoiceSlices};

use super::common::load_columns;
use super::pricing::price;
use choosing::{Contest, Decision, least_regret};
use image::Refusal;
use labels::FAR;
use listing::clear;
use loading::{Network, label_nodes};
use measuring::ColumnLabels;
use ranking::Query;

// Chooses the path of a contest, and writes it. The workspace is cleared.
fn choose_priced(contest: &Contest<'_>, work: &mut [u32], path: &mut [u16]) -> Decision
    requires space { Space (nodes_in contest.now) contest.now.query.slots work.old }
    requires path_long { nodes_in contest.now ≤ length path.old }
    ensures result_value { decision_list result ≡ robust_values (answer_in contest.now) }
    ensures path_after { path.new ≡ after sound (chosen (answer_in contest.now)) path.old }
    ensures work_after { work.new ≡ replicate (length work.old) 0 }
{
    let decision = least_regret(contest, work, path);
    clear(work);
    decision
}

// Chooses the path of an accepted image without the arcs that the map closes, and writes it. Nothing is
// touched if there is no path.
pub fn choose_left(
    network: &Network<'_>,
    closed: &[u64],
    r: u32,
    start: u32,
    goal: u32,
    wanted: u32,
    path: &mut [u16],
    work: &mut [u32],
) -> Result<Decision, Refusal>
    requires column { InColumn network.now.image.now r }
    requires ends { Ends (net network.now).nodes start goal }
    requires choice_slices { ChoiceSlices (net network.now).nodes wanted path.old work.old }
    ensures result_value { answer decision_list result ≡ outcome (no_open_path (without closed.now (net network.now)) r start goal) (robust_values (robust (without closed.now (net network.now)) r start goal wanted)) }
    ensures path_after { path.new ≡ after (no_open_path (without closed.now (net network.now)) r start goal) (chosen (robust (without closed.now (net network.now)) r start goal wanted)) path.old }
    ensures work_after { work.new ≡ cleared (no_open_path (without closed.now (net network.now)) r start goal) work.old }
{
    let mut star = [0u16; 3403];
    let mut costs = [0u32; 8000];
    let mut labels = [0u64; 201];
    let mut bests = [0u64; 8];
    let columns = load_columns(network, closed, &mut star, &mut costs);
    let labels = &mut labels[..columns.nodes + 1];
    let bests = &mut bests[..columns.count];
    let graph = columns.column(r as usize);
    label_nodes(&graph, goal as usize, labels);
    // FAR and no None: see labels
    if labels[start as usize] == FAR {
        return Err(Refusal::NoPath);
    }
    let known = ColumnLabels {
        column: r as usize,
        labels,
    };
    price(
        network,
        closed,
        &columns,
        Some(known),
        start as usize,
        goal as usize,
        bests,
    );
    let query = Query {
        graph,
        labels,
        start: start as u16,
        goal: goal as usize,
        slots: wanted as usize + 1,
    };
    let contest = Contest {
        columns,
        bests,
        column: r as usize,
        query,
        wanted: wanted as usize,
    };
    Ok(choose_priced(&contest, work, path))
}

// The same of the whole image: the map that is handed down closes no arc. It stays beside `choose_left` since its
// contract speaks of the whole network: a caller that hands down `&[]` would have to rewrite all three clauses itself.
pub fn choose_whole(
    network: &Network<'_>,
    r: u32,
    start: u32,
    goal: u32,
    wanted: u32,
    path: &mut [u16],
    work: &mut [u32],
) -> Result<Decision, Refusal>
    requires column { InColumn network.now.image.now r }
    requires ends { Ends (net network.now).nodes start goal }
    requires choice_slices { ChoiceSlices (net network.now).nodes wanted path.old work.old }
    ensures result_value { answer decision_list result ≡ outcome (no_open_path (net network.now) r start goal) (robust_values (robust_of network.now.image.now r start goal wanted)) }
    ensures path_after { path.new ≡ after (no_open_path (net network.now) r start goal) (chosen (robust_of network.now.image.now r start goal wanted)) path.old }
    ensures work_after { work.new ≡ cleared (no_open_path (net network.now) r start goal) work.old }
{
    choose_left(network, &[], r, start, goal, wanted, path, work)
}
