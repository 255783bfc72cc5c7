// What arcs cost in one column.
ghost use Rattle.std.specs.Prelude.{◌≡◌, ◌≤◌, ◌<◌, length, All};
ghost use Rattle.measuring.specs.Steps.{sum_of};

// The sum of the weights of the arcs, from the last backwards.
pub fn arc_sum(weights: &[u32], arcs: &[u16]) -> u64
    requires few { length arcs.now ≤ 1000 }
    requires arcs_in { All (λ a. a < length weights.now) arcs.now }
    ensures { result ≡ sum_of weights.now arcs.now }
{
    let mut sum = 0;
    for &arc in arcs.iter().rev() {
        sum += u64::from(weights[arc as usize]);
    }
    sum
}
