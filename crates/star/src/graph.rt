// A graph in two slices.
#![tactic(auto, unfolding(crate::specs::Layout::tails_of, crate::specs::Layout::heads_of, crate::specs::Layout::nexts_of, crate::specs::Layout::outs_of, crate::specs::Layout::ins_of))]

ghost use Rattle.std.specs.Prelude.{ℕ};
ghost use Rattle.star.specs.Layout.{Holds};

use crate::arcs::arc_between;
use std::ops::Range;

// A graph of nodes 1 to `nodes`. `star` has its topology, and `weights` the costs of one column. The five
// lists of the topology lie in one slice, so that the caller makes one array (no heap, fixed memory) for them.
#[derive(Clone, Copy)]
pub struct Graph<'a> {
    pub nodes: usize,
    pub star: &'a [u16],
    pub weights: &'a [u32],
    pub ghost holds: { Holds nodes star.now weights.now },
}

impl<'a> Graph<'a> {
    ghost use Rattle.std.specs.Prelude.{◌≡◌, ◌+◌, ◌≤◌, length};
    ghost use Rattle.star.specs.Found.{ArcFound};
    ghost use Rattle.star.specs.Graphs.{tails, heads, next_in, first_out, first_in, out_start};

    // The tail of each arc.
    pub fn tails(&self) -> &'a [u16]
        ensures of_graph { result.now ≡ tails self.now }
        ensures per_arc { length result.now ≡ length self.now.weights.now }
    {
        &self.star[..self.weights.len()]
    }

    // The head of each arc.
    pub fn heads(&self) -> &'a [u16]
        ensures of_graph { result.now ≡ heads self.now }
        ensures per_arc { length result.now ≡ length self.now.weights.now }
    {
        let m = self.weights.len();
        &self.star[m..2 * m]
    }

    // The link from each arc to the next one into the same head.
    pub fn next_in(&self) -> &'a [u16]
        ensures of_graph { result.now ≡ next_in self.now }
        ensures per_arc { length result.now ≡ length self.now.weights.now }
    {
        let m = self.weights.len();
        &self.star[2 * m..3 * m]
    }

    // Where the arcs out of each node begin.
    pub fn first_out(&self) -> &'a [u16]
        ensures of_graph { result.now ≡ first_out self.now }
        ensures per_node_and_end { length result.now ≡ self.now.nodes + 2 }
    {
        let places = self.nodes + 1;
        let outs = 3 * self.weights.len();
        &self.star[outs..outs + places + 1]
    }

    // The link to the last arc into each node.
    pub fn first_in(&self) -> &'a [u16]
        ensures of_graph { result.now ≡ first_in self.now }
        ensures per_node { length result.now ≡ self.now.nodes + 1 }
    {
        let places = self.nodes + 1;
        let outs = 3 * self.weights.len();
        &self.star[outs + places + 1..]
    }

    // The indices of the arcs out of v.
    pub fn outs(&self, v: usize) -> Range<usize>
        requires { v ≤ self.now.nodes }
        ensures start { result.start ≡ out_start self.now v }
        ensures end { result.end ≡ out_start self.now (v + 1) }
        ensures ordered { result.start ≤ result.end }
        ensures within { result.end ≤ length self.now.weights.now }
    {
        let first_out = self.first_out();
        first_out[v] as usize..first_out[v + 1] as usize
    }

    // The index of the arc from v to y, if there is one.
    pub fn arc(&self, v: usize, y: u16) -> Option<u16>
        requires { v ≤ self.now.nodes }
        ensures { ArcFound (heads self.now) (first_out self.now) v y result }
    {
        arc_between(self.heads(), self.first_out(), v, y)
    }
}
