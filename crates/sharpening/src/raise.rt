// Labels raised by what a search found, and mended so that they are consistent.
ghost use Rattle.std.specs.Prelude.{◌≡◌, true, List, ℕ, ◌+◌, ◌≤◌, ◌<◌, length, get_or, false, IfSome};
ghost use Rattle.terms.specs.Lists.{elem};
ghost use Rattle.star.specs.Graphs.{arcs_of};
ghost use Rattle.exits.specs.Small.{Small, longest};
ghost use Rattle.exits.specs.Walks.{Consistent};
ghost use Rattle.sharpening.specs.Sharp.{Raises, Lifted, Mends};

use crate::front::Front;
use crate::search::LONGEST;
use exits::least_exit;
use labels::FAR;
use star::Graph;

// Raises the label of x by what its key falls short of `level`, or to FAR if there is none.
fn lift(x: usize, level: Option<u64>, front: &Front<'_>, labels: &mut [u64])
    requires small { Small front.now.places labels.old }
    requires node { x < front.now.places }
    requires level { IfSome level (λ cost. cost ≤ longest) }
    ensures still_small { Small front.now.places labels.new }
    ensures raises { Raises x labels.old labels.new }
{
    let Some(level) = level else {
        labels[x] = FAR;
        return;
    };
    let old = labels[x];
    if let Some(more) = level.checked_sub(front.key(x))
        && old <= LONGEST - more
    {
        labels[x] = old + more;
    }
}

// The same for each node that was taken but the goal.
pub fn lift_all(front: &Front<'_>, goal: usize, level: Option<u64>, labels: &mut [u64])
    requires small { Small front.now.places labels.old }
    requires level { IfSome level (λ cost. cost ≤ longest) }
    ensures still_small { Small front.now.places labels.new }
    ensures lifted { Lifted goal front.now.taken (length front.now.taken) labels.old labels.new }
{
    for &node in front.taken() {
        let x = node as usize;
        if x != goal {
            lift(x, level, front, labels);
        }
    }
}

// Raises the label of x to the least weight and label over its exits. Says whether it fits then: not if it
// was above that.
fn mend(graph: &Graph<'_>, x: usize, used: &[bool], labels: &mut [u64]) -> bool
    requires used_long { length used.now ≡ graph.now.nodes + 1 }
    requires small { Small (length used.now) labels.old }
    requires node { x < length used.now }
    ensures still_small { Small (length used.now) labels.new }
    ensures mends { result ≡ true → Mends (arcs_of graph.now) used.now x labels.old labels.new }
{
    let Some(step) = least_exit(graph, x, labels, used, used) else {
        labels[x] = FAR;
        return true;
    };
    let l = step.rest;
    let old = labels[x];
    if l < old {
        return false;
    }
    if LONGEST < l {
        return old <= LONGEST;
    }
    labels[x] = l;
    true
}

// The same for each node that was taken but the goal, from the last to the first.
pub fn mend_all(
    graph: &Graph<'_>,
    front: &Front<'_>,
    goal: usize,
    used: &[bool],
    labels: &mut [u64],
) -> bool
    requires used_long { length used.now ≡ graph.now.nodes + 1 }
    requires places { front.now.places ≡ length used.now }
    requires small { Small (length used.now) labels.old }
    ensures still_small { Small (length used.now) labels.new }
    ensures consistent { (os bar : List ℕ) → result ≡ true → Lifted goal front.now.taken (length front.now.taken) os labels.old → ((z : ℕ) → elem z bar ≡ false → get_or used.now z false ≡ false) → Consistent (arcs_of graph.now) goal os bar → Consistent (arcs_of graph.now) goal labels.new bar }
{
    for &node in front.taken().iter().rev() {
        let x = node as usize;
        if x != goal && !mend(graph, x, used, labels) {
            return false;
        }
    }
    true
}
