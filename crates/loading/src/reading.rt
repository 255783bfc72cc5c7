// The arcs at given indices of an accepted image, and the costs of its columns for these.
ghost use Rattle.std.specs.Prelude.{◌≡◌, map, ◌+◌, ◌*◌, ◌-◌, ◌≤◌, length};
ghost use Rattle.terms.specs.Network.{cost_column};
ghost use Rattle.image.specs.Bytes.{decode};
ghost use Rattle.image.specs.Layout.{costs_start};
ghost use Rattle.loading.specs.Accepted.{InColumn};
ghost use Rattle.loading.specs.Networks.{net};
ghost use Rattle.loading.specs.Selected.{Indices, at_places, selected, in_a_row};

use crate::network::Network;
use image::{Word, costs_start, read_words};

// The tails and heads of the arcs at these indices, each in a slice of its own: the star keeps them apart. By
// place, here and in `pick_costs`: of what is written through `iter_mut().zip(..)` a proof knows nothing.
pub fn read_arcs(network: &Network<'_>, kept: &[u16], tails: &mut [u16], heads: &mut [u16])
    requires indices { Indices network.now.sizes.m kept.now }
    requires tails_len { length tails.old ≡ length kept.now }
    requires heads_len { length heads.old ≡ length kept.now }
    ensures tails_after { tails.new ≡ map (λ a. a.0) (selected kept.now (net network.now)).arcs }
    ensures heads_after { heads.new ≡ map (λ a. a.1) (selected kept.now (net network.now)).arcs }
{
    for (i, &index) in kept.iter().enumerate() {
        let arc = index as usize;
        tails[i] = u16::read(network.image, 24 + 4 * arc);
        heads[i] = u16::read(network.image, 26 + 4 * arc);
    }
}

// Where column u starts in an image of m arcs.
pub fn column_start(m: u32, u: u32) -> usize
    requires { (m ≤ 1000) × (1 ≤ u) × (u ≤ 8) }
    ensures { result ≡ costs_start m + 4 * ((u - 1) * m) }
{
    (costs_start(m) + 4 * ((u - 1) * m)) as usize
}

// The costs at these indices of a column of m costs.
fn pick_costs(column: &[u8], m: usize, kept: &[u16], weights: &mut [u32])
    requires { (4 * m ≤ length column.now) × (m ≤ 1000) × Indices m kept.now × (length weights.old ≡ length kept.now) }
    ensures { weights.new ≡ at_places kept.now (decode 4 m column.now) }
{
    for (i, &index) in kept.iter().enumerate() {
        let arc = index as usize;
        weights[i] = u32::read(column, 4 * arc);
    }
}

// The same; where all m arcs are in, the column is copied as it stands.
fn copy_costs(column: &[u8], m: usize, kept: &[u16], weights: &mut [u32])
    requires { (4 * m ≤ length column.now) × (m ≤ 1000) × Indices m kept.now × (length weights.old ≡ length kept.now) }
    ensures { weights.new ≡ at_places kept.now (decode 4 m column.now) }
{
    if kept.len() == m {
        read_words(column, m, weights);
    } else {
        pick_costs(column, m, kept, weights);
    }
}

// The costs of column u for the arcs at these indices. The column is a part of the image that starts in
// its middle.
pub fn read_column(network: &Network<'_>, u: u32, kept: &[u16], weights: &mut [u32])
    requires column { InColumn network.now.image.now u }
    requires indices { Indices network.now.sizes.m kept.now }
    requires weights_len { length weights.old ≡ length kept.now }
    ensures { weights.new ≡ at_places kept.now (cost_column (net network.now) u) }
{
    let m = network.sizes.m as usize;
    let start = column_start(network.sizes.m, u);
    copy_costs(&network.image[start..start + 4 * m], m, kept, weights);
}

// The costs of all columns for the arcs at these indices, one column after the other. The parts are cut by
// hand: there may be no arc, and `chunks_exact_mut` takes no parts of length 0.
pub fn read_columns(network: &Network<'_>, kept: &[u16], costs: &mut [u32])
    requires indices { Indices network.now.sizes.m kept.now }
    requires costs_len { length costs.old ≡ length kept.now * network.now.sizes.k }
    ensures { costs.new ≡ in_a_row (selected kept.now (net network.now)).columns }
{
    let m = kept.len();
    let k = network.sizes.k;
    for u in 0..k {
        let from = (u as usize) * m;
        let to = from + m;
        read_column(network, u + 1, kept, &mut costs[from..to]);
    }
}
