// Results written over the beginning of a lent slice.
ghost use Rattle.std.specs.Prelude.{◌≡◌, ◌++◌, map, ℕ, ◌+◌, ◌-◌, ◌≤◌, ◌<◌, length, get_or, take, drop};
ghost use Rattle.outcomes.specs.Labels.{Narrow, narrowed};

use labels::FAR;

// A label in 32 bits: Label's mark in the place of FAR.
#[tactic(auto, unfolding(crate::specs::Labels::narrowed))]
pub fn narrow(label: u64) -> u32
    requires { Narrow label }
    ensures { result ≡ narrowed label }
{
    if label == FAR { u32::MAX } else { label as u32 }
}

// Writes the labels of the nodes 1, 2 and so on, in 32 bits. By place: of what is written through
// `iter_mut().zip(..)` a proof knows nothing.
pub fn write_narrow(exact: &[u64], labels: &mut [u32])
    requires labels_long { length exact.now ≤ length labels.old + 1 }
    requires exact_narrow { (v : ℕ) → v < length exact.now → Narrow (get_or exact.now v 0) }
    ensures { labels.new ≡ map narrowed (drop 1 exact.now) ++ drop (length exact.now - 1) labels.old }
{
    for i in 1..exact.len() {
        labels[i - 1] = narrow(exact[i]);
    }
}

// Writes the first `count` nodes of a route. The number stands beside the route, as it does in the
// arrays of 200 places that hold one. By place: of `copy_from_slice` the compiler makes a `memmove`, which the
// archive for C would then need from outside.
pub fn write_path(route: &[u16], count: usize, path: &mut [u16])
    requires { (count ≤ length route.now) × (count ≤ length path.old) }
    ensures { path.new ≡ take count route.now ++ drop count path.old }
{
    for i in 0..count {
        path[i] = route[i];
    }
}
