// Arcs of an accepted image in a star.
// Arrays have room for the largest network: the library allocates nothing, its memory is fixed.
ghost use Rattle.std.specs.Prelude.{◌≡◌, ◌+◌, length};
ghost use Rattle.loading.specs.Networks.{net};
ghost use Rattle.loading.specs.Loaded.{Shape, star_size};
ghost use Rattle.loading.specs.Selected.{Indices, selected};

use super::reading::read_arcs;
use crate::network::Network;
use star::{assemble, chain, out_starts};

// Fills the star with the arcs at these indices, and with the arcs out of and into each node.
pub fn fill_star(network: &Network<'_>, kept: &[u16], star: &mut [u16])
    requires indices { Indices network.now.sizes.m kept.now }
    requires star_len { length star.old ≡ star_size network.now.sizes.n (length kept.now) }
    ensures { Shape (selected kept.now (net network.now)) star.new }
{
    let mut tail_room = [0u16; 1000];
    let mut head_room = [0u16; 1000];
    let mut next_room = [0u16; 1000];
    let mut out_room = [0u16; 202];
    let mut in_room = [0u16; 201];
    let arcs = kept.len();
    let places = network.sizes.n as usize + 1;
    let tails = &mut tail_room[..arcs];
    let heads = &mut head_room[..arcs];
    let next_in = &mut next_room[..arcs];
    let first_out = &mut out_room[..places + 1];
    let first_in = &mut in_room[..places];
    read_arcs(network, kept, tails, heads);
    out_starts(tails, first_out);
    chain(heads, first_in, next_in);
    assemble(tails, heads, next_in, first_out, first_in, star);
}
