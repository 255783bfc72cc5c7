// Where the arcs out of each node begin.
ghost use Rattle.std.specs.Prelude.{ℕ, ◌<◌, length, get_or};
ghost use Rattle.star.specs.Star.{RisingTails, Cut};

// Fills first_out: the arcs out of v begin where the tails below v end. The tails rise. One pass over them
// serves all nodes: in instructions `partition_point` for each node costs 2.6 times that, and
// `take_while(..).count()` 1.3 times.
pub fn out_starts(tails: &[u16], first_out: &mut [u16])
    requires { RisingTails tails.now }
    ensures { (v : ℕ) → v < length first_out.old → Cut tails.now v (get_or first_out.new v 0) }
{
    let mut i = 0;
    for (v, start) in first_out.iter_mut().enumerate() {
        while i < tails.len() && (tails[i] as usize) < v {
            i += 1;
        }
        *start = i as u16;
    }
}
