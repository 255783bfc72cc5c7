// The search: it takes nodes outwards from the end of a branch's beginning, and says how far it went. That
// the lent slices and the front have a place for each node is asked of each function: a struct of graph, labels and
// used would be made for four functions, and taken apart again in each for `via_below` and `tight_exit`, which are
// asked the same slice by slice; and `barred` is `used` from the second node on.
ghost use Rattle.std.specs.Prelude.{◌≡◌, ◌+◌, ◌≤◌, ◌<◌, length, IfSome};
ghost use Rattle.exits.specs.Small.{Small, longest};
ghost use Rattle.sharpening.specs.Sharp.{Same};

use crate::front::Front;
use exits::{tight_exit, via_below};
use labels::FAR;
use star::Graph;

// No path costs more.
pub const LONGEST: u64 = 53418655545;

// From which node a search goes to which, and the most that a path from the one to the other may cost.
#[derive(Clone, Copy)]
pub struct Quest {
    pub from: usize,
    pub goal: usize,
    pub most: u64,
    pub ghost bounded: { most ≤ longest },
}

impl Quest {
    ghost use Rattle.std.specs.Prelude.{◌≤◌, IfSome};

    // What a path costs at least if none was found that costs `most` at the most: None if any would do.
    fn beyond(self) -> Option<u64>
        ensures { IfSome result (λ cost. cost ≤ longest) }
    {
        (self.most < LONGEST).then_some(self.most + 1)
    }
}

// The node whose arcs are followed. Its key is the least cost of a path through it, by the labels at
// hand, and a path may cost `room` more.
#[derive(Clone, Copy)]
pub struct Hub {
    pub node: usize,
    pub key: u64,
    pub room: u64,
    pub ghost bounded: { key + room ≤ longest },
}

// Follows an arc from the hub, whose label is `own`, to y, with weight and label l. A y with the hub's
// own key is next: no node has a smaller one.
fn reach(y: usize, l: u64, own: u64, hub: Hub, front: &mut Front<'_>)
    requires node { y < front.old.places }
    ensures { Same front.old front.new }
{
    if let Some(more) = l.checked_sub(own)
        && more <= hub.room
    {
        front.note(y, hub.key + more, more == 0);
    }
}

// Follows each arc from the hub to a node that is neither used nor barred.
fn spread(
    graph: &Graph<'_>,
    hub: Hub,
    overall: &[u64],
    used: &[bool],
    barred: &[bool],
    front: &mut Front<'_>,
)
    requires overall_long { length overall.now ≡ graph.now.nodes + 1 }
    requires small { Small (length overall.now) overall.now }
    requires node { hub.node < length overall.now }
    requires used_long { length used.now ≡ length overall.now }
    requires barred_long { length barred.now ≡ length overall.now }
    requires places { front.old.places ≡ length overall.now }
    ensures { Same front.old front.new }
{
    // by index, as in `exits`
    let heads = graph.heads();
    let weights = graph.weights;
    let own = overall[hub.node];
    let outs = graph.outs(hub.node);
    for i in outs.start..outs.end {
        let y = heads[i] as usize;
        if let Some(l) = via_below(y, weights[i], FAR, overall, used, barred) {
            reach(y, l, own, hub, front);
        }
    }
}

// Whether a walk along the labels leads from x to the goal in at most `most` steps, and meets neither a
// used node nor one with a key that is no greater than `key`, as all nodes have that were taken.
fn leads(
    graph: &Graph<'_>,
    goal: usize,
    overall: &[u64],
    used: &[bool],
    front: &Front<'_>,
    x: usize,
    key: u64,
    most: usize,
) -> bool
    requires overall_long { length overall.now ≡ graph.now.nodes + 1 }
    requires node { x < length overall.now }
    requires used_long { length used.now ≡ length overall.now }
    requires places { front.now.places ≡ length overall.now }
{
    let mut at = x;
    for _ in 0..most {
        if at == goal {
            return true;
        }
        let Some(y) = tight_exit(graph, at, overall, used) else {
            return false;
        };
        at = y as usize;
        if front.key(at) <= key {
            return false;
        }
    }
    at == goal
}

// How many steps that walk may have, where `last` is the key of the last node taken: none from the first
// node, where it was tried before, nor from one that has that key, because it goes on from there; else any
// number.
fn steps_allowed(last: Option<u64>, key: u64, nodes: usize) -> usize {
    match last {
        Some(last) if last < key => nodes,
        _ => 0,
    }
}

// Takes node after node, by its key, and follows its arcs, until it comes to the goal, or a walk along
// the labels leads there, or all keys are above `most`. Returns what a path costs at least: the key with
// which it came to the goal, or one more than the most; None if there was none, and any path would do.
fn search(
    graph: &Graph<'_>,
    quest: Quest,
    overall: &[u64],
    used: &[bool],
    front: &mut Front<'_>,
) -> Option<u64>
    requires overall_long { length overall.now ≡ graph.now.nodes + 1 }
    requires small { Small (length overall.now) overall.now }
    requires used_long { length used.now ≡ length overall.now }
    requires places { front.old.places ≡ length overall.now }
    ensures places { front.new.places ≡ front.old.places }
    ensures level { IfSome result (λ cost. cost ≤ longest) }
{
    // the key of the last node taken
    let mut last = None;
    while let Some(at) = front.pick(last.unwrap_or(0)) {
        let node = front.node(at);
        let key = front.key(node);
        if quest.most < key {
            return quest.beyond();
        }
        let steps = steps_allowed(last, key, used.len());
        if leads(graph, quest.goal, overall, used, front, node, key, steps) {
            return Some(key);
        }
        front.take(at);
        last = Some(key);
        let hub = Hub {
            node,
            key,
            room: quest.most - key,
        };
        spread(graph, hub, overall, used, used, front);
    }
    quest.beyond()
}

// The whole search, from the last node of the branch's beginning. No node has been met.
pub fn search_from(
    graph: &Graph<'_>,
    quest: Quest,
    overall: &[u64],
    used: &[bool],
    barred: &[bool],
    front: &mut Front<'_>,
) -> Option<u64>
    requires overall_long { length overall.now ≡ graph.now.nodes + 1 }
    requires small { Small (length overall.now) overall.now }
    requires from { quest.from < length overall.now }
    requires used_long { length used.now ≡ length overall.now }
    requires barred_long { length barred.now ≡ length overall.now }
    requires places { front.old.places ≡ length overall.now }
    ensures places { front.new.places ≡ front.old.places }
    ensures level { IfSome result (λ cost. cost ≤ longest) }
{
    let key = overall[quest.from];
    if quest.most < key {
        return quest.beyond();
    }
    let hub = Hub {
        node: quest.from,
        key,
        room: quest.most - key,
    };
    spread(graph, hub, overall, used, barred, front);
    search(graph, quest, overall, used, front)
}
