// The columns of a network, in two slices.
ghost use Rattle.measuring.specs.Columns.{HoldColumns};

use star::Graph;

// A network of nodes 1 to `nodes` with `arcs` arcs and `count` columns. `star` has the topology of the arcs,
// as crate star has it, and `costs` has the costs of the columns, one column after the other.
#[derive(Clone, Copy)]
pub struct Columns<'a> {
    pub nodes: usize,
    pub arcs: usize,
    pub count: usize,
    pub star: &'a [u16],
    pub costs: &'a [u32],
    pub ghost held: { HoldColumns nodes arcs count star.now costs.now },
}

impl<'a> Columns<'a> {
    ghost use Rattle.std.specs.Prelude.{◌≡◌, length};
    ghost use Rattle.terms.specs.Network.{column};
    ghost use Rattle.star.specs.Graphs.{arcs_of};
    ghost use Rattle.measuring.specs.Networks.{network_of, costs_in, IsColumn};

    // The cost of each arc in column u.
    pub fn costs_in(&self, u: usize) -> &'a [u32]
        requires { IsColumn self.now u }
        ensures costs { result.now ≡ costs_in self.now u }
        ensures one_per_arc { length result.now ≡ self.now.arcs }
    {
        let from = (u - 1) * self.arcs;
        &self.costs[from..from + self.arcs]
    }

    // The graph of column u.
    pub fn column(&self, u: usize) -> Graph<'a>
        requires { IsColumn self.now u }
        ensures nodes { result.nodes ≡ self.now.nodes }
        ensures star { result.star.now ≡ self.now.star.now }
        ensures weights { result.weights.now ≡ costs_in self.now u }
        ensures arcs { length result.weights.now ≡ self.now.arcs }
        ensures graph { arcs_of result ≡ column (network_of self.now) u }
    {
        Graph {
            nodes: self.nodes,
            star: self.star,
            weights: self.costs_in(u),
        }
    }
}
