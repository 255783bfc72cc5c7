// Unpack: the lists of an image.
ghost use Rattle.std.specs.Prelude.{◌≡◌, length};
ghost use Rattle.image.specs.Outcome.{sound, after};
ghost use Rattle.image.specs.Layout.{node_list, cost_list};
ghost use Rattle.image.specs.Answers.{answer, size_list};
ghost use Rattle.packing.specs.Calls.{unpack_fault, unpack_outcome};
ghost use Rattle.packing.specs.RoundTrip.{WritesAgain};

use image::check::check;
use image::{Refusal, Sizes, cost_count, costs_start, read_words};

// REFERENCE, section 4.8.
pub fn unpack(image: &[u8], nodes: &mut [u16], costs: &mut [u32]) -> Result<Sizes, Refusal>
    ensures result_value { answer size_list result ≡ unpack_outcome image.now (length nodes.old) (length costs.old) }
    ensures nodes_after { nodes.new ≡ after (unpack_fault image.now (length nodes.old) (length costs.old)) (node_list image.now) nodes.old }
    ensures costs_after { costs.new ≡ after (unpack_fault image.now (length nodes.old) (length costs.old)) (cost_list image.now) costs.old }
    ensures writes_again { unpack_fault image.now (length nodes.old) (length costs.old) ≡ sound → WritesAgain image.now }
{
    // `let .. else` and no `?`: the specification asks for this form (docs/THEOREMS.md)
    let answer = check(image);
    let Ok(sizes) = answer else {
        return answer;
    };
    let m = sizes.m;
    let k = sizes.k;
    let nodes_needed = 2 * (m as usize);
    let costs_needed = cost_count(m, k) as usize;
    if nodes.len() < nodes_needed || costs.len() < costs_needed {
        return Err(Refusal::SliceTooShort);
    }
    read_words(&image[24..], nodes_needed, nodes);
    let start = costs_start(m) as usize;
    read_words(&image[start..], costs_needed, costs);
    Ok(sizes)
}
