// The arcs into each node, chained from the last one to the first. A link is one more than an
// arc's index, and 0 ends a chain: the links are numbers of the one slice that a graph lies in (fixed
// memory), where an Option of each would take twice the room.
ghost use Rattle.star.specs.Chains.{Chainable, Chains};

// Chains the arcs: first_in[h] leads to the last arc into h, and next_in[i] to the last one before
// arc i that has the same head.
pub fn chain(heads: &[u16], first_in: &mut [u16], next_in: &mut [u16])
    requires { Chainable heads.now first_in.old next_in.old }
    ensures { Chains heads.now first_in.new next_in.new }
{
    first_in.fill(0);
    for (i, h) in heads.iter().enumerate() {
        let h = *h as usize;
        next_in[i] = first_in[h];
        first_in[h] = (i + 1) as u16;
    }
}
