// A node list held to the paths that are open in every column of an accepted image, and measured.
// Arrays have room for the largest network: the library allocates nothing, its memory is fixed.
ghost use Rattle.std.specs.Prelude.{◌≡◌, [], ◌∷◌, length};
ghost use Rattle.terms.specs.Network.{common};
ghost use Rattle.terms.specs.Paths.{OpenPath};
ghost use Rattle.terms.specs.Regret as terms;
ghost use Rattle.image.specs.Outcome.{outcome};
ghost use Rattle.image.specs.Answers.{answer};
ghost use Rattle.loading.specs.Accepted.{Ends};
ghost use Rattle.loading.specs.Networks.{net};
ghost use Rattle.measuring.specs.Networks.{network_of};
ghost use Rattle.outcomes.specs.Calls.{list_row};
ghost use Rattle.network_calls.specs.Answers.{measure_list};

use super::common::load_columns;
use super::node_list::check_list;
use super::pricing::price;
use image::Refusal;
use labels::FAR;
use loading::Network;
use measuring::{Columns, measure};

// A path's greatest regret, and the lowest-numbered column that has it: measuring's, in the 32 bits of C. It is made in
// one place, where the figure is known to fit; a `From` could not ask that.
#[derive(Clone, Copy, Debug, PartialEq, Eq)]
pub struct Measure {
    pub figure: u32,
    pub worst: u32,
}

// Measures a path that is open in every column, with the columns of the arcs that are so.
pub fn measure_path(
    network: &Network<'_>,
    columns: &Columns<'_>,
    start: usize,
    goal: usize,
    nodes: &[u16],
    bests: &mut [u64],
) -> Measure
    requires common { network_of columns.now ≡ common (net network.now) }
    requires bests_long { length bests.old ≡ network.now.sizes.k }
    requires ends { Ends (net network.now).nodes start goal }
    requires path { OpenPath (net network.now) start goal nodes.now }
    ensures { (result.figure ≡ terms.figure (net network.now) start goal nodes.now) × (result.worst ≡ terms.worst (net network.now) start goal nodes.now) }
{
    price(network, &[], columns, None, start, goal, bests);
    // FAR as the limit, which no figure reaches: one comparison in each column serves with a limit and without,
    // where an Option would be tested besides
    let found = measure(columns, bests, nodes, FAR);
    Measure {
        figure: found.figure as u32,
        worst: found.worst,
    }
}

// Row 14, and the measure where it does not apply.
fn measure_shared(
    network: &Network<'_>,
    columns: &Columns<'_>,
    start: u32,
    goal: u32,
    nodes: &[u16],
    bests: &mut [u64],
) -> Result<Measure, Refusal>
    requires common { network_of columns.now ≡ common (net network.now) }
    requires bests_long { length bests.old ≡ network.now.sizes.k }
    requires ends { Ends (net network.now).nodes start goal }
    ensures { answer measure_list result ≡ outcome (list_row (terms.open_fault (net network.now) start goal nodes.now)) (terms.figure (net network.now) start goal nodes.now ∷ terms.worst (net network.now) start goal nodes.now ∷ []) }
{
    check_list(&columns.column(1), start, goal, nodes)?;
    Ok(measure_path(
        network,
        columns,
        start as usize,
        goal as usize,
        nodes,
        bests,
    ))
}

// The figure and the worst column of a node list, or the row that refuses it.
pub fn measure_list(
    network: &Network<'_>,
    start: u32,
    goal: u32,
    nodes: &[u16],
) -> Result<Measure, Refusal>
    requires { Ends (net network.now).nodes start goal }
    ensures { answer measure_list result ≡ outcome (list_row (terms.open_fault (net network.now) start goal nodes.now)) (terms.figure (net network.now) start goal nodes.now ∷ terms.worst (net network.now) start goal nodes.now ∷ []) }
{
    let mut star = [0u16; 3403];
    let mut costs = [0u32; 8000];
    let mut bests = [0u64; 8];
    let columns = load_columns(network, &[], &mut star, &mut costs);
    let bests = &mut bests[..columns.count];
    measure_shared(network, &columns, start, goal, nodes, bests)
}
