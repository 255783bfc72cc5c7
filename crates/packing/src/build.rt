// Build: an image from lists.
ghost use Rattle.std.specs.Prelude.{◌≡◌, map, ◌++◌, ◌+◌, ◌*◌, ◌/◌, ◌≤◌, ◌<◌, length, get_or, take, drop};
ghost use Rattle.image.specs.Bytes.{encode};
ghost use Rattle.image.specs.Outcome.{sound, after};
ghost use Rattle.image.specs.Layout.{header, image_of};
ghost use Rattle.image.specs.Refusals.{verdict};
ghost use Rattle.image.specs.Answers.{answer, one_number};
ghost use Rattle.packing.specs.Calls.{build_fault, build_outcome};
ghost use Rattle.packing.specs.RoundTrip.{ReadsBack};

use image::{
    Refusal, Sizes, Word, check_arcs, check_costs, cost_count, costs_start, image_length, in_range,
    is_taken,
};

// Rows 2, 3, 4, 6 to 9 and 13 for an image slice of `room` bytes.
fn check_lists(
    edition: u32,
    n: u32,
    k: u32,
    nodes: &[u16],
    costs: &[u32],
    room: usize,
) -> Result<(), Refusal>
    ensures { verdict result ≡ build_fault edition n k nodes.now costs.now room }
{
    if !is_taken(2, edition) {
        return Err(Refusal::WrongEdition);
    }
    let m = nodes.len() / 2;
    if 1000 < m || !in_range(n, m as u32, k) {
        return Err(Refusal::SizeOutOfRange);
    }
    if nodes.len() % 2 != 0 || costs.len() != cost_count(m as u32, k) as usize {
        return Err(Refusal::WrongField);
    }
    let arc_at = |i: usize| -> (u32, u32)
        requires { 2 * i + 2 ≤ length nodes.now }
        ensures { result ≡ (get_or nodes.entry.now (2 * i) 0, get_or nodes.entry.now (2 * i + 1) 0) }
    {
        let tail = nodes[2 * i];
        let head = nodes[2 * i + 1];
        (u32::from(tail), u32::from(head))
    };
    check_arcs(n, m, arc_at)?;
    let cost_at = |i: usize| -> u32
        requires { i < length costs.now }
        ensures { result ≡ get_or costs.entry.now i 0 }
    { costs[i] };
    check_costs(edition, costs.len(), cost_at)?;
    if room < image_length(m as u32, k) as usize {
        return Err(Refusal::SliceTooShort);
    }
    Ok(())
}

// The header of 24 bytes.
fn write_header(image: &mut [u8], sizes: Sizes)
    requires { (24 ≤ length image.old) × (sizes.edition < 65536) × (sizes.n ≤ 200) × (sizes.m ≤ 1000) × (sizes.k ≤ 8) }
    ensures { image.new ≡ header sizes.edition sizes.n sizes.m sizes.k ++ drop 24 image.old }
{
    let Sizes { n, m, k, edition } = sizes;
    (edition as u16).write(image, 0);
    (n as u16).write(image, 2);
    (m as u16).write(image, 4);
    (k as u16).write(image, 6);
    24u32.write(image, 8);
    costs_start(m).write(image, 12);
    image_length(m, k).write(image, 16);
    0u32.write(image, 20);
}

// Numbers one after the other, from an offset on.
fn write_words<W: Word>(image: &mut [u8], start: usize, words: &[W])
    requires { start + W.BYTES * length words.now ≤ length image.old }
    ensures { image.new ≡ take start image.old ++ (encode W.BYTES (map W.value words.now) ++ drop (start + W.BYTES * length words.now) image.old) }
{
    for (i, &word) in words.iter().enumerate() {
        word.write(image, start + W::BYTES * i);
    }
}

// REFERENCE, section 4.7.
pub fn build(
    edition: u32,
    n: u32,
    k: u32,
    nodes: &[u16],
    costs: &[u32],
    image: &mut [u8],
) -> Result<u32, Refusal>
    ensures result_value { answer one_number result ≡ build_outcome edition n k nodes.now costs.now (length image.old) }
    ensures image_after { image.new ≡ after (build_fault edition n k nodes.now costs.now (length image.old)) (image_of edition n k nodes.now costs.now) image.old }
    ensures reads_back { build_fault edition n k nodes.now costs.now (length image.old) ≡ sound → ReadsBack edition n k nodes.now costs.now }
{
    check_lists(edition, n, k, nodes, costs, image.len())?;
    let m = (nodes.len() / 2) as u32;
    write_header(image, Sizes { n, m, k, edition });
    write_words(image, 24, nodes);
    write_words(image, costs_start(m) as usize, costs);
    Ok(image_length(m, k))
}
