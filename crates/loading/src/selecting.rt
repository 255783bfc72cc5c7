// Which arcs of an accepted image are in: their indices, in rising order. This is the one place that
// knows a closed arc, by the map or by a mark; what is read for these indices holds no mark.
ghost use Rattle.std.specs.Prelude.{◌≡◌, ◌&&◌, ◌*◌, ◌≤◌, length, take};
ghost use Rattle.terms.specs.Lists.{keep, numbers};
ghost use Rattle.terms.specs.Network.{open_in, open_everywhere};
ghost use Rattle.closures.specs.Map.{left};
ghost use Rattle.image.specs.Bytes.{decode};
ghost use Rattle.loading.specs.Accepted.{InColumn};
ghost use Rattle.loading.specs.Networks.{net};
ghost use Rattle.loading.specs.Selected.{passing, Indices, unmarked_at};

use super::reading::column_start;
use crate::network::Network;
use closures::is_closed;
use image::{CLOSED, Word};

// The indices of all arcs: 0, 1 and so on.
pub fn number_arcs(kept: &mut [u16])
    requires { length kept.old ≤ 1000 }
    ensures { kept.new ≡ numbers 0 (length kept.old) }
{
    for (i, index) in kept.iter_mut().enumerate() {
        *index = i as u16;
    }
}

// The indices of the arcs that the map leaves open, at the front. Returns how many. The front is counted by
// hand, here and in `drop_marked`: std has no `retain` for a slice.
fn number_left(closed: &[u64], kept: &mut [u16]) -> usize
    requires { length kept.old ≤ 1000 }
    ensures { (result ≤ length kept.old) × (take result kept.new ≡ passing (left closed.now) (length kept.old)) }
{
    let mut front = 0;
    for i in 0..kept.len() {
        if !is_closed(closed, i) {
            kept[front] = i as u16;
            front += 1;
        }
    }
    front
}

// The same; an empty map leaves all arcs, and they are numbered.
fn select_left(closed: &[u64], kept: &mut [u16]) -> usize
    requires { length kept.old ≤ 1000 }
    ensures { (result ≤ length kept.old) × (take result kept.new ≡ passing (left closed.now) (length kept.old)) }
{
    if closed.is_empty() {
        number_arcs(kept);
        return kept.len();
    }
    number_left(closed, kept)
}

// Of these indices those whose cost is not the mark, moved to the front. Returns how many. m stands beside the bytes,
// here and in reading.rt, since the contracts speak of the first m costs (`decode 4 m`).
fn drop_marked(costs: &[u8], m: usize, kept: &mut [u16]) -> usize
    requires costs_long { 4 * m ≤ length costs.now }
    requires few_costs { m ≤ 1000 }
    requires indices { Indices m kept.old }
    ensures { (result ≤ length kept.old) × (take result kept.new ≡ keep (unmarked_at (decode 4 m costs.now)) kept.old) }
{
    let mut front = 0;
    for i in 0..kept.len() {
        let arc = kept[i];
        if u32::read(costs, 4 * (arc as usize)) != CLOSED {
            kept[front] = arc;
            front += 1;
        }
    }
    front
}

// Of these indices of arcs those that are open in column u, moved to the front. Returns how many.
fn keep_open(network: &Network<'_>, u: u32, kept: &mut [u16]) -> usize
    requires column { InColumn network.now.image.now u }
    requires indices { Indices network.now.sizes.m kept.old }
    ensures { (result ≤ length kept.old) × (take result kept.new ≡ keep (open_in (net network.now) u) kept.old) }
{
    let m = network.sizes.m as usize;
    let start = column_start(network.sizes.m, u);
    drop_marked(&network.image[start..start + 4 * m], m, kept)
}

// Writes the indices of the arcs that the map leaves and that are open in column u, and returns how many
// there are. In edition 1 every arc is open.
pub fn select_open(network: &Network<'_>, closed: &[u64], u: u32, kept: &mut [u16]) -> usize
    requires column { InColumn network.now.image.now u }
    requires kept_len { length kept.old ≡ network.now.sizes.m }
    ensures { (result ≤ network.now.sizes.m) × (take result kept.new ≡ passing (λ i. left closed.now i && open_in (net network.now) u i) network.now.sizes.m) }
{
    let count = select_left(closed, kept);
    if network.sizes.edition == 1 {
        return count;
    }
    keep_open(network, u, &mut kept[..count])
}

// Writes the indices of the arcs that the map leaves and that are open in every column, and returns how many
// there are.
pub fn select_common(network: &Network<'_>, closed: &[u64], kept: &mut [u16]) -> usize
    requires { length kept.old ≡ network.now.sizes.m }
    ensures { (result ≤ network.now.sizes.m) × (take result kept.new ≡ passing (λ i. left closed.now i && open_everywhere (net network.now) i) network.now.sizes.m) }
{
    let mut count = select_left(closed, kept);
    if network.sizes.edition == 1 {
        return count;
    }
    for u in 0..network.sizes.k {
        count = keep_open(network, u + 1, &mut kept[..count]);
    }
    count
}
