// Whether the current answer stands when an arc is closed.
// Arrays have room for the largest network: the library allocates nothing, its memory is fixed.
ghost use Rattle.std.specs.Prelude.{◌≡◌, ◌<◌, length, get_or};
ghost use Rattle.terms.specs.Regret as terms;
ghost use Rattle.closures.specs.Map.{without};
ghost use Rattle.closures.specs.Standing as standing;
ghost use Rattle.loading.specs.Accepted.{Ends};
ghost use Rattle.loading.specs.Networks.{net};
ghost use Rattle.week_calls.specs.Weeks.{stands};

use super::week::Week;
use closures::touches;
use image::Word;
use loading::Network;
use network_calls::own_bests;

// Whether each column has the same best with two maps of closed arcs.
fn same_bests(network: &Network<'_>, old: &[u64], new: &[u64], start: usize, goal: usize) -> bool
    requires { Ends (net network.now).nodes start goal }
    ensures { result ≡ standing.alike (terms.bests (without old.now (net network.now)) start goal) (terms.bests (without new.now (net network.now)) start goal) }
{
    let mut old_room = [0u64; 8];
    let mut new_room = [0u64; 8];
    let k = network.sizes.k as usize;
    let before = &mut old_room[..k];
    let after = &mut new_room[..k];
    own_bests(network, old, start, goal, before);
    own_bests(network, new, start, goal, after);
    &*before == &*after
}

// Whether a route goes by the arc at an index.
fn touched(network: &Network<'_>, arc: usize, route: &[u16]) -> bool
    requires { arc < network.now.sizes.m }
    ensures { result ≡ standing.touches (get_or (net network.now).arcs arc (0, 0)) route.now }
{
    // the one arc that is read by itself: loading reads at the indices of a slice, and would want one made for it
    let tail = u16::read(network.image, 24 + 4 * arc);
    let head = u16::read(network.image, 26 + 4 * arc);
    touches(tail, head, route)
}

// Whether the answer stands where the map becomes `next` by the closure of an arc.
pub fn stands(
    network: &Network<'_>,
    start: usize,
    goal: usize,
    week: Week,
    next: [u64; 16],
    arc: usize,
) -> bool
    requires ends { Ends (net network.now).nodes start goal }
    requires arc { arc < network.now.sizes.m }
    ensures { result ≡ stands (net network.now) start goal week next arc }
{
    if week.state != 1 {
        return false;
    }
    // how much of the route is read: its length, but no more than its places
    let count = week.length.min(200) as usize;
    let route = week.route;
    if touched(network, arc, &route[..count]) {
        return false;
    }
    let words = week.closed;
    same_bests(network, &words, &next, start, goal)
}
