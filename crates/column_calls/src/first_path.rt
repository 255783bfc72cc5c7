// The first path of the ranking order in one column of an accepted image.
// Arrays have room for the largest network: the library allocates nothing, its memory is fixed.
ghost use Rattle.std.specs.Prelude.{◌≡◌, length};
ghost use Rattle.terms.specs.Network.{column};
ghost use Rattle.branching.specs.Branches.{everything};
ghost use Rattle.branching.specs.Found.{Extent, FirstFound};
ghost use Rattle.loading.specs.Networks.{net};

use super::trip::Trip;
use branching::{Tail, shortest};

// The first path, laid out in route.
pub fn find(trip: &Trip<'_>, route: &mut [u16]) -> Option<Tail>
    requires { length route.old ≡ (net trip.now.network).nodes }
    ensures extent { Extent 1 route.new result }
    ensures first_found { FirstFound (column (net trip.now.network) trip.now.column) trip.now.start trip.now.goal (everything trip.now.start) route.new result }
{
    let mut star_room = [0u16; 3403];
    let mut weight_room = [0u32; 1000];
    let mut label_room = [0u64; 201];
    let arcs = trip.network.sizes.m as usize;
    let places = trip.network.sizes.n as usize + 1;
    let star = &mut star_room[..3 * arcs + places + 1 + places];
    let weights = &mut weight_room[..arcs];
    let labels = &mut label_room[..places];
    let graph = trip.load(star, weights, labels);
    shortest(&graph, trip.start as u16, trip.goal as usize, labels, route)
}
