// Check: whether an image is accepted, and its sizes.
ghost use Rattle.std.specs.Prelude.{◌≡◌, ◌+◌, ◌*◌, ◌≤◌, length};
ghost use Rattle.image.specs.Bytes.{field};
ghost use Rattle.image.specs.Outcome.{outcome};
ghost use Rattle.image.specs.Rows.{pairs, lists_fault};
ghost use Rattle.image.specs.Layout.{fields_right, total, nodes_in, costs_in};
ghost use Rattle.image.specs.Calls.{header_fault, taken_fault, sizes, check_outcome};
ghost use Rattle.image.specs.Answers.{answer, size_list};

use super::bytes::Word;
use super::layout::{cost_count, costs_start, image_length};
use super::refusal::Refusal;
use super::rows::{check_arcs, check_costs, in_range, is_taken};

// The numbers of nodes, arcs and columns: n, m and k; and the edition.
#[derive(Clone, Copy, Debug, PartialEq, Eq)]
pub struct Sizes {
    pub n: u32,
    pub m: u32,
    pub k: u32,
    // a number and no enum: `is_taken` and `is_cost`, rows 2 and 9, are asked of any number, and each answer gives it as one
    pub edition: u32,
}

// Whether the offsets, the total and the reserved field are right: row 4.
#[tactic(auto, unfolding(crate::specs::Layout::fields_right))]
fn fields_right(image: &[u8], m: u32, k: u32) -> bool
    requires { (24 ≤ length image.now) × (m ≤ 1000) × (k ≤ 8) }
    ensures { result ≡ fields_right image.now m k }
{
    u32::read(image, 8) == 24
        && u32::read(image, 12) == costs_start(m)
        && u32::read(image, 16) == image_length(m, k)
        && u32::read(image, 20) == 0
}

// Rows 1 to 5, for a call that takes the editions up to `latest`, and the sizes if none of them applies.
fn check_header(image: &[u8], latest: u32) -> Result<Sizes, Refusal>
    ensures { answer size_list result ≡ outcome (header_fault latest image.now) (sizes image.now) }
{
    if image.len() < 24 {
        return Err(Refusal::ImageTooShort);
    }
    let edition = u32::from(u16::read(image, 0));
    if !is_taken(latest, edition) {
        return Err(Refusal::WrongEdition);
    }
    let n = u32::from(u16::read(image, 2));
    let m = u32::from(u16::read(image, 4));
    let k = u32::from(u16::read(image, 6));
    if !in_range(n, m, k) {
        return Err(Refusal::SizeOutOfRange);
    }
    if !fields_right(image, m, k) {
        return Err(Refusal::WrongField);
    }
    if image.len() != image_length(m, k) as usize {
        return Err(Refusal::WrongLength);
    }
    Ok(Sizes { n, m, k, edition })
}

// Rows 6 to 9 for an image whose header is sound, and its sizes if none of them applies.
fn check_body(image: &[u8], sizes: Sizes) -> Result<Sizes, Refusal>
    requires { (sizes.m ≤ 1000) × (sizes.k ≤ 8) × (length image.now ≡ total sizes.m sizes.k) }
    ensures { answer size_list result ≡ outcome (lists_fault sizes.edition sizes.n (pairs sizes.m (nodes_in sizes.m image.now)) (costs_in sizes.m sizes.k image.now)) (size_list sizes) }
{
    let m = sizes.m;
    let k = sizes.k;
    let records = &image[24..];
    let arc_at = |i: usize| -> (u32, u32)
        requires { 4 * i + 4 ≤ length records.now }
        ensures { result ≡ (field 2 records.entry.now (4 * i), field 2 records.entry.now (4 * i + 2)) }
    {
        let tail = u16::read(records, 4 * i);
        let head = u16::read(records, 4 * i + 2);
        (u32::from(tail), u32::from(head))
    };
    check_arcs(sizes.n, m as usize, arc_at)?;
    let costs = &image[costs_start(m) as usize..];
    let cost_at = |i: usize| -> u32
        requires { 4 * i + 4 ≤ length costs.now }
        ensures { result ≡ field 4 costs.entry.now (4 * i) }
    { u32::read(costs, 4 * i) };
    check_costs(sizes.edition, cost_count(m, k) as usize, cost_at)?;
    Ok(sizes)
}

// The image's own rows, for a call that takes the editions up to `latest`.
fn check_taken(image: &[u8], latest: u32) -> Result<Sizes, Refusal>
    ensures { answer size_list result ≡ outcome (taken_fault latest image.now) (sizes image.now) }
{
    let sizes = check_header(image, latest)?;
    check_body(image, sizes)
}

// REFERENCE, section 4.1. Every other call with an image checks it so, and takes the editions 1 and 2.
pub fn check(image: &[u8]) -> Result<Sizes, Refusal>
    ensures { answer size_list result ≡ check_outcome image.now }
{
    check_taken(image, 2)
}
