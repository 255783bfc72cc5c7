// Find: the arc between two nodes, among all records of an image.
// Arrays have room for the largest network: the library allocates nothing, its memory is fixed.
ghost use Rattle.std.specs.Prelude.{◌≡◌};
ghost use Rattle.image.specs.Outcome.{sound};
ghost use Rattle.image.specs.Layout.{net_of};
ghost use Rattle.image.specs.Calls.{image_fault};
ghost use Rattle.image.specs.Answers.{answer};
ghost use Rattle.star.specs.Found.{sought};
ghost use Rattle.arc_calls.specs.Calls.{FindsArc, find_of, find_outcome};
ghost use Rattle.arc_calls.specs.Answers.{found_list};

use image::Refusal;
use image::check::check;
use loading::{Network, number_arcs, read_arcs};
use star::{Sought, find_arc};

// What Find gives: the arc's index, if there is one, and at how many records it looked. It is star's `Sought` in the 32
// bits of C, made in one place alone.
#[derive(Clone, Copy, Debug, PartialEq, Eq)]
pub struct Found {
    pub index: Option<u32>,
    pub looks: u32,
}

// The arc from tail to head in an accepted image, among the tails and heads of all its arcs.
fn seek_arc(network: &Network<'_>, tail: u32, head: u32) -> Sought
    ensures { sought result ≡ find_of network.now.image.now tail head }
{
    let mut arc_room = [0u16; 1000];
    let mut tail_room = [0u16; 1000];
    let mut head_room = [0u16; 1000];
    let m = network.sizes.m as usize;
    let arcs = &mut arc_room[..m];
    let tails = &mut tail_room[..m];
    let heads = &mut head_room[..m];
    number_arcs(arcs);
    read_arcs(network, arcs, tails, heads);
    find_arc(tails, heads, 0..arcs.len(), (tail as usize, head as usize))
}

// REFERENCE, section 4.9.
pub fn find(image: &[u8], tail: u32, head: u32) -> Result<Found, Refusal>
    ensures result_value { answer found_list result ≡ find_outcome image.now tail head }
    ensures finds_arc { image_fault image.now ≡ sound → FindsArc (net_of image.now).arcs (tail, head) (find_of image.now tail head) }
{
    // `let .. else` and no `?`: the specification asks for this form (docs/THEOREMS.md)
    let answer = check(image);
    let Ok(sizes) = answer else {
        return Err(answer.unwrap_err());
    };
    let network = Network { image, sizes };
    let sought = seek_arc(&network, tail, head);
    Ok(Found {
        index: sought.arc.map(|index| index as u32),
        looks: sought.looks,
    })
}
