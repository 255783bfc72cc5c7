// Node lists: whether one is a path, and where it fails.
ghost use Rattle.std.specs.Prelude.{◌≡◌, ◌≤◌, length, get_or};
ghost use Rattle.terms.specs.Regret.{fault};
ghost use Rattle.image.specs.Refusals.{verdict};
ghost use Rattle.star.specs.Graphs.{arcs_of, tails, heads};
ghost use Rattle.loading.specs.Accepted.{Node};
ghost use Rattle.outcomes.specs.Calls.{list_row};
ghost use Rattle.network_calls.specs.NodeLists.{first_error};

use image::Refusal;
use star::{Graph, arc_between};

// The first position after the first whose node repeats or has no arc from the node before.
fn first_error(graph: &Graph<'_>, nodes: &[u16]) -> Option<usize>
    requires some_node { 1 ≤ length nodes.now }
    requires first_node { get_or nodes.now 0 0 ≤ graph.now.nodes }
    ensures { first_error (tails graph.now) (heads graph.now) nodes.now result }
{
    let heads = graph.heads();
    let first_out = graph.first_out();
    // by place: the place is the answer, with which both loops are left by label. The specification asks for this
    // form (docs/THEOREMS.md)
    'search: {
        for at in 1..nodes.len() {
            let found = arc_between(heads, first_out, nodes[at - 1] as usize, nodes[at]);
            if found.is_none() {
                break 'search Some(at);
            }
            for before in 0..at {
                if nodes[before] == nodes[at] {
                    break 'search Some(at);
                }
            }
        }
        None
    }
}

// Whether a node list is a path from start to goal in a graph: row 14.
pub fn check_list(graph: &Graph<'_>, start: u32, goal: u32, nodes: &[u16]) -> Result<(), Refusal>
    requires { Node graph.now.nodes start }
    ensures { verdict result ≡ list_row (fault (arcs_of graph.now) start goal nodes.now) }
{
    if nodes.len() == 0 || u32::from(nodes[0]) != start {
        return Err(Refusal::NotAPath(0));
    }
    if let Some(at) = first_error(graph, nodes) {
        return Err(Refusal::NotAPath(at as u32));
    }
    let end = nodes.len();
    if u32::from(nodes[end - 1]) != goal {
        return Err(Refusal::NotAPath(end as u32));
    }
    Ok(())
}
