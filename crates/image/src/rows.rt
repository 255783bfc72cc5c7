// The rows of the refusal table that Check and Build share: the edition, the sizes, the arcs and the costs.
ghost use Rattle.std.specs.Prelude.{◌≡◌, ◌&&◌, List, ℕ, ◌≤◌, ◌<◌, leb, length, get_or};
ghost use Rattle.image.specs.Rows.{in_range, is_node, is_cost, arc_fault, arcs_fault, costs_fault};
ghost use Rattle.image.specs.Refusals.{verdict};
ghost use Rattle.terms.specs.Network.{below};

use super::refusal::Refusal;

// Whether a call that takes the editions from 1 to `latest` takes this one: row 2.
pub fn is_taken(latest: u32, edition: u32) -> bool
    ensures { result ≡ (leb 1 edition && leb edition latest) }
{
    (1..=latest).contains(&edition)
}

// Whether n, m and k are in their ranges: row 3.
#[tactic(auto, unfolding(crate::specs::Rows::in_range))]
pub fn in_range(n: u32, m: u32, k: u32) -> bool
    ensures { result ≡ in_range n m k }
{
    (2..=200).contains(&n) && m <= 1000 && (1..=8).contains(&k)
}

// Whether v is one of the nodes 1 to n.
#[tactic(auto, unfolding(crate::specs::Rows::is_node))]
pub fn is_node(n: u32, v: u32) -> bool
    ensures { result ≡ is_node n v }
{
    (1..=n).contains(&v)
}

// Whether tail and head are nodes.
fn joins_nodes(n: u32, arc: (u32, u32)) -> bool
    ensures { result ≡ (is_node n arc.0 && is_node n arc.1) }
{
    is_node(n, arc.0) && is_node(n, arc.1)
}

// Whether an arc stands after the arc `last`: by its tail, and with the same tail by its head.
#[tactic(auto, unfolding(terms::specs::Network::below))]
fn is_after(last: (u32, u32), arc: (u32, u32)) -> bool
    ensures { result ≡ below last arc }
{
    // test after test: of the order of tuples, and of a chain by `&&`, the compiler works out all parts for each arc
    if last.0 < arc.0 {
        return true;
    }
    if arc.0 < last.0 {
        return false;
    }
    last.1 < arc.1
}

// Rows 6, 7 and 8 for the arc at an index, its tail and its head, which stands after the arc `last`.
fn check_arc(n: u32, last: (u32, u32), index: u32, arc: (u32, u32)) -> Result<(), Refusal>
    ensures { verdict result ≡ arc_fault n last index arc }
{
    if !joins_nodes(n, arc) {
        return Err(Refusal::ArcOutOfRange(index));
    }
    if arc.0 == arc.1 {
        return Err(Refusal::ArcToItself(index));
    }
    if !is_after(last, arc) {
        return Err(Refusal::ArcNotRising(index));
    }
    Ok(())
}

// Rows 6 to 8, over `count` arcs, each of which `arc` gives. Check has them in bytes and Build in a list of nodes, so
// both are asked for arc i, as for cost i below (no arc before the first is (0, 0), which is below each, as in the contract): an iterator is no plainer, since its contract speaks of a run and of
// what is left of it, where here one clause says what stands at i.
pub fn check_arcs<F: Fn(usize) -> (u32, u32)>(n: u32, count: usize, arc: F) -> Result<(), Refusal>
    requires small { count ≤ 1000 }
    requires callable { (i : ℕ) → i < count → F.pre arc i }
    ensures { (arcs : List (ℕ × ℕ)) → length arcs ≡ count → ((i : ℕ) (a : ℕ × ℕ) → i < count → F.post arc i a → get_or arcs i (0, 0) ≡ a) → verdict result ≡ arcs_fault n (0, 0) 0 arcs }
{
    let mut last = (0, 0);
    for i in 0..count {
        let here = arc(i);
        check_arc(n, last, i as u32, here)?;
        last = here;
    }
    Ok(())
}

// In the place of a cost: the arc is closed in that column. A number, since it stands so in the bytes of an image.
pub const CLOSED: u32 = 4294967295;

// Whether a number may stand as a cost in an image of this edition: row 9.
#[tactic(auto, unfolding(crate::specs::Rows::is_cost))]
pub fn is_cost(edition: u32, cost: u32) -> bool
    ensures { result ≡ is_cost edition cost }
{
    // test after test, as above: Check asks this of each cost, and with `||` or `&&` it takes twice the instructions
    if cost <= 1000000 {
        return true;
    }
    if edition != 2 {
        return false;
    }
    cost == CLOSED
}

// Row 9, over `count` costs of an image of this edition, each of which `cost` gives.
pub fn check_costs<F: Fn(usize) -> u32>(edition: u32, count: usize, cost: F) -> Result<(), Refusal>
    requires small { count ≤ 8000 }
    requires callable { (i : ℕ) → i < count → F.pre cost i }
    ensures { (costs : List ℕ) → length costs ≡ count → ((i x : ℕ) → i < count → F.post cost i x → get_or costs i 0 ≡ x) → verdict result ≡ costs_fault edition 0 costs }
{
    for i in 0..count {
        if !is_cost(edition, cost(i)) {
            return Err(Refusal::CostTooLarge(i as u32));
        }
    }
    Ok(())
}
