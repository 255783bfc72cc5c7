// From where to where a path goes, and in which column.
ghost use Rattle.std.specs.Prelude.{◌≡◌};
ghost use Rattle.loading.specs.Accepted.{InColumn, Ends};
ghost use Rattle.loading.specs.Networks.{net};
ghost use Rattle.loading.specs.Loaded.{Room, Loaded};

use loading::{Network, load_whole};
use star::Graph;

// Two nodes of an accepted image, and one of its columns.
#[derive(Clone, Copy)]
pub struct Trip<'a> {
    pub network: Network<'a>,
    pub column: u32,
    pub start: u32,
    pub goal: u32,
    ghost in_column: { InColumn network.image.now column },
    ghost ends: { Ends (net network).nodes start goal },
}

impl Trip<'_> {
    // The graph of the column, in slices with room for all arcs; and the labels to the goal.
    pub fn load<'a>(
        &self,
        star: &'a mut [u16],
        weights: &'a mut [u32],
        labels: &mut [u64],
    ) -> Graph<'a>
        requires { Room self.now.network.sizes.n self.now.network.sizes.m star.old weights.old labels.old }
        ensures nodes { result.nodes ≡ self.now.network.sizes.n }
        ensures loaded { Loaded (net self.now.network) self.now.column self.now.goal result.star.now result.weights.now labels.new }
    {
        let network = &self.network;
        let goal = self.goal as usize;
        let m = load_whole(network, self.column, goal, star, weights, labels);
        let nodes = network.sizes.n as usize;
        let places = nodes + 1;
        let size = 3 * m + places + 1 + places;
        Graph {
            nodes,
            star: &star[..size],
            weights: &weights[..m],
        }
    }
}
