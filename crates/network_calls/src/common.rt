// The arcs of an accepted image that are open in every column.
ghost use Rattle.std.specs.Prelude.{◌≡◌, ◌*◌, ◌≤◌, length};
ghost use Rattle.terms.specs.Network.{common};
ghost use Rattle.closures.specs.Map.{without};
ghost use Rattle.loading.specs.Networks.{net};
ghost use Rattle.loading.specs.Loaded.{star_size};
ghost use Rattle.measuring.specs.Networks.{network_of};

use loading::{Network, load_common_left};
use measuring::Columns;

// Reads the arcs that are open in every column and that the map doesn't close, with all columns for them, in
// slices with room for all arcs at least.
pub fn load_columns<'a>(
    network: &Network<'_>,
    closed: &[u64],
    star: &'a mut [u16],
    costs: &'a mut [u32],
) -> Columns<'a>
    requires star_room { star_size network.now.sizes.n network.now.sizes.m ≤ length star.old }
    requires costs_room { network.now.sizes.m * network.now.sizes.k ≤ length costs.old }
    ensures { network_of result ≡ common (without closed.now (net network.now)) }
{
    let nodes = network.sizes.n as usize;
    let most = network.sizes.m as usize;
    let count = network.sizes.k as usize;
    let places = nodes + 1;
    let all = 3 * most + places + 1 + places;
    let arcs = load_common_left(
        network,
        closed,
        &mut star[..all],
        &mut costs[..most * count],
    );
    let size = 3 * arcs + places + 1 + places;
    Columns {
        nodes,
        arcs,
        count,
        star: &star[..size],
        costs: &costs[..arcs * count],
    }
}
