// A column of an accepted image made ready for the search of paths: the graph of the arcs that are open in
// it, and their labels; the arcs that are open in every column, and all arcs, each with all columns. Beside the
// image stands a map of closed arcs, which may be empty.
// That the column and the goal are of the image and that the lent slices have room is asked of each function: a
// goal comes without a start (Label has none), and a struct over lent `&mut` slices would be taken apart again
// before the star is cut to its arcs and read as a graph. That the indices read rise and are the image's (`Indices`) is
// asked of each reader as well: the slice that has them is still written while arcs are selected.
// Arrays have room for the largest network: the library allocates nothing, its memory is fixed.
ghost use Rattle.std.specs.Prelude.{◌≡◌, [], ◌+◌, ◌*◌, ◌≤◌, ◌<◌, length, take};
ghost use Rattle.closures.specs.Map.{without};
ghost use Rattle.star.specs.Graphs.{arcs_of};
ghost use Rattle.labels.specs.Labels.{Least};
ghost use Rattle.loading.specs.Accepted.{Node, InColumn};
ghost use Rattle.loading.specs.Networks.{net};
ghost use Rattle.loading.specs.Selected.{Indices, OpenIndices, selected, in_a_row};
ghost use Rattle.loading.specs.Loaded.{star_size, Room, Shape, Loaded, Shared};

use super::filling::fill_star;
use super::reading::{read_column, read_columns};
use super::selecting::{number_arcs, select_common, select_open};
use crate::network::Network;
use labels::least;
use star::Graph;

// Labels each node of a graph with its least cost to the goal.
pub fn label_nodes(graph: &Graph<'_>, goal: usize, overall: &mut [u64])
    requires goal { goal ≤ graph.now.nodes }
    requires overall_long { length overall.old ≡ graph.now.nodes + 1 }
    ensures { Least (arcs_of graph.now) [] goal overall.new }
{
    let barred = [false; 201];
    let places = overall.len();
    least(graph, &barred[..places], goal, overall);
}

// Reads the arcs at these indices, all of them open in column u, and labels each node with its least cost to
// the goal.
fn label_column(
    network: &Network<'_>,
    u: u32,
    goal: usize,
    kept: &[u16],
    star: &mut [u16],
    weights: &mut [u32],
    overall: &mut [u64],
)
    requires column { InColumn network.now.image.now u }
    requires goal { Node (net network.now).nodes goal }
    requires open_indices { OpenIndices (net network.now) u network.now.sizes.m kept.now }
    requires room { Room network.now.sizes.n (length kept.now) star.old weights.old overall.old }
    ensures { Loaded (selected kept.now (net network.now)) u goal star.new weights.new overall.new }
{
    fill_star(network, kept, star);
    read_column(network, u, kept, weights);
    let graph = Graph {
        nodes: network.sizes.n as usize,
        star,
        weights,
    };
    label_nodes(&graph, goal, overall);
}

// Reads the arcs that the map leaves and that are open in column u, and labels each node with its least cost
// to the goal. Returns how many arcs there are; the star and the weights stand at the beginning of what is lent.
pub fn load_left(
    network: &Network<'_>,
    closed: &[u64],
    u: u32,
    goal: usize,
    star: &mut [u16],
    weights: &mut [u32],
    overall: &mut [u64],
) -> usize
    requires column { InColumn network.now.image.now u }
    requires goal { Node (net network.now).nodes goal }
    requires room { Room network.now.sizes.n network.now.sizes.m star.old weights.old overall.old }
    ensures { (result ≤ network.now.sizes.m) × Loaded (without closed.now (net network.now)) u goal (take (star_size network.now.sizes.n result) star.new) (take result weights.new) overall.new }
{
    let mut indices = [0u16; 1000];
    let kept = &mut indices[..network.sizes.m as usize];
    let m = select_open(network, closed, u, kept);
    let places = network.sizes.n as usize + 1;
    let size = 3 * m + places + 1 + places;
    label_column(
        network,
        u,
        goal,
        &kept[..m],
        &mut star[..size],
        &mut weights[..m],
        overall,
    );
    m
}

// The same of the whole image: the map that is handed down closes no arc. The code is one call; it stands here
// since each caller without a map would else repeat the proof that the empty map leaves the whole network.
pub fn load_whole(
    network: &Network<'_>,
    u: u32,
    goal: usize,
    star: &mut [u16],
    weights: &mut [u32],
    overall: &mut [u64],
) -> usize
    requires column { InColumn network.now.image.now u }
    requires goal { Node (net network.now).nodes goal }
    requires room { Room network.now.sizes.n network.now.sizes.m star.old weights.old overall.old }
    ensures { (result ≤ network.now.sizes.m) × Loaded (net network.now) u goal (take (star_size network.now.sizes.n result) star.new) (take result weights.new) overall.new }
{
    load_left(network, &[], u, goal, star, weights, overall)
}

// Reads the arcs at these indices, and all columns for them.
fn fill_common(network: &Network<'_>, kept: &[u16], star: &mut [u16], costs: &mut [u32])
    requires indices { Indices network.now.sizes.m kept.now }
    requires star_len { length star.old ≡ star_size network.now.sizes.n (length kept.now) }
    requires costs_len { length costs.old ≡ length kept.now * network.now.sizes.k }
    ensures { Shape (selected kept.now (net network.now)) star.new × (costs.new ≡ in_a_row (selected kept.now (net network.now)).columns) }
{
    fill_star(network, kept, star);
    read_columns(network, kept, costs);
}

// Reads the arcs that the map leaves and that are open in every column, and all columns for them. Returns how
// many arcs there are; the star and the costs stand at the beginning of what is lent.
pub fn load_common_left(
    network: &Network<'_>,
    closed: &[u64],
    star: &mut [u16],
    costs: &mut [u32],
) -> usize
    requires star_len { length star.old ≡ star_size network.now.sizes.n network.now.sizes.m }
    requires costs_len { length costs.old ≡ network.now.sizes.m * network.now.sizes.k }
    ensures { (result ≤ network.now.sizes.m) × Shared (without closed.now (net network.now)) result (take (star_size network.now.sizes.n result) star.new) (take (result * network.now.sizes.k) costs.new) }
{
    let mut indices = [0u16; 1000];
    let kept = &mut indices[..network.sizes.m as usize];
    let m = select_common(network, closed, kept);
    let places = network.sizes.n as usize + 1;
    let size = 3 * m + places + 1 + places;
    let all = m * (network.sizes.k as usize);
    fill_common(network, &kept[..m], &mut star[..size], &mut costs[..all]);
    m
}

// Reads all arcs, open or not, and all columns as they stand in the image.
pub fn load_all(network: &Network<'_>, star: &mut [u16], costs: &mut [u32])
    requires star_len { length star.old ≡ star_size network.now.sizes.n network.now.sizes.m }
    requires costs_len { length costs.old ≡ network.now.sizes.m * network.now.sizes.k }
    ensures { Shape (net network.now) star.new × (costs.new ≡ in_a_row (net network.now).columns) }
{
    let mut indices = [0u16; 1000];
    let kept = &mut indices[..network.sizes.m as usize];
    number_arcs(kept);
    fill_star(network, kept, star);
    read_columns(network, kept, costs);
}
