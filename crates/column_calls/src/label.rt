// Label: for each node the least cost to the goal.
// Arrays have room for the largest network: the library allocates nothing, its memory is fixed.
ghost use Rattle.std.specs.Prelude.{◌≡◌, ◌++◌, ◌+◌, ◌≤◌, ◌<◌, length, drop};
ghost use Rattle.image.specs.Outcome.{after, outcome};
ghost use Rattle.image.specs.Calls.{sizes};
ghost use Rattle.image.specs.Answers.{answer, no_values, size_list};
ghost use Rattle.outcomes.specs.Calls.{label_fault, label_outcome, labels_of};
ghost use Rattle.loading.specs.Networks.{net};
ghost use Rattle.loading.specs.Accepted.{Node, InColumn};

use image::check::check;
use image::{Refusal, Sizes, is_node};
use loading::{Network, load_whole};
use outcomes::{is_one_of, write_narrow};

// Label's rows for a slice of `room` places.
fn check_label(image: &[u8], column: u32, goal: u32, room: usize) -> Result<Sizes, Refusal>
    ensures { answer size_list result ≡ outcome (label_fault image.now column goal room) (sizes image.now) }
{
    // `let .. else` and no `?`: the specification asks for this form (docs/THEOREMS.md)
    let answer = check(image);
    let Ok(sizes) = answer else {
        return answer;
    };
    if !is_node(sizes.n, goal) {
        return Err(Refusal::WrongEnds);
    }
    if !is_one_of(sizes.k, column) {
        return Err(Refusal::WrongColumn);
    }
    if room < sizes.n as usize {
        return Err(Refusal::SliceTooShort);
    }
    Ok(sizes)
}

// Writes the labels of the column. Label has a goal and no start, so that they are no `Trip`.
fn write_labels(network: &Network<'_>, column: u32, goal: u32, labels: &mut [u32])
    requires column { InColumn network.now.image.now column }
    requires goal { Node (net network.now).nodes goal }
    requires room { (net network.now).nodes ≤ length labels.old }
    ensures { labels.new ≡ labels_of network.now.image.now column goal ++ drop (net network.now).nodes labels.old }
{
    let mut star_room = [0u16; 3403];
    let mut weight_room = [0u32; 1000];
    let mut label_room = [0u64; 201];
    let arcs = network.sizes.m as usize;
    let places = network.sizes.n as usize + 1;
    let star = &mut star_room[..3 * arcs + places + 1 + places];
    let weights = &mut weight_room[..arcs];
    let exact = &mut label_room[..places];
    load_whole(network, column, goal as usize, star, weights, exact);
    write_narrow(exact, labels);
}

// REFERENCE, section 4.2.
pub fn label(image: &[u8], column: u32, goal: u32, labels: &mut [u32]) -> Result<(), Refusal>
    ensures result_value { answer no_values result ≡ label_outcome image.now column goal (length labels.old) }
    ensures labels_after { labels.new ≡ after (label_fault image.now column goal (length labels.old)) (labels_of image.now column goal) labels.old }
{
    let sizes = check_label(image, column, goal, labels.len())?;
    let network = Network { image, sizes };
    write_labels(&network, column, goal, labels);
    Ok(())
}
