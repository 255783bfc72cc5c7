// Update: records of costs, written over the costs of an image.
// Arrays have room for the largest network: the library allocates nothing, its memory is fixed.
ghost use Rattle.std.specs.Prelude.{◌≡◌, cond, List, ◌++◌, ℕ, ◌+◌, ◌*◌, ◌≤◌, ◌<◌, leb, length, get_or, take, drop, set};
ghost use Rattle.image.specs.Bytes.{bytes, encode};
ghost use Rattle.image.specs.Outcome.{sound, outcome, after};
ghost use Rattle.image.specs.Refusals.{verdict};
ghost use Rattle.image.specs.Layout.{costs_start, total};
ghost use Rattle.image.specs.Calls.{sizes};
ghost use Rattle.image.specs.Answers.{answer, no_values, size_list};
ghost use Rattle.record_calls.specs.Records.{record_of, record_list, costs_after, image_after};
ghost use Rattle.record_calls.specs.Calls.{record_fault, records_fault, both_fault, update_fault, update_outcome};
ghost use Rattle.record_calls.specs.Updates.{Updates};
ghost use Rattle.image.proofs.ByteLaws.{AllBytes};

use image::check::check;
use image::{Refusal, Sizes, Word, cost_count, costs_start, is_cost};

// Rows 17, 18 and 9 for the record at an index, in an image of these sizes.
fn check_record(sizes: Sizes, index: usize, arc: u32, column: u32, cost: u32) -> Result<(), Refusal>
    ensures { (stamp : ℕ) → verdict result ≡ record_fault sizes.edition sizes.m sizes.k index (record_of arc column cost stamp) }
{
    let place = (index % 4294967296) as u32;
    if sizes.m <= arc {
        return Err(Refusal::WrongRecordArc(place));
    }
    if !(1..=sizes.k).contains(&column) {
        return Err(Refusal::WrongRecordColumn(place));
    }
    if !is_cost(sizes.edition, cost) {
        return Err(Refusal::CostTooLarge(place));
    }
    Ok(())
}

// The same for all records of a list.
fn check_records(sizes: Sizes, records: &[u32]) -> Result<(), Refusal>
    ensures { verdict result ≡ records_fault sizes.edition sizes.m sizes.k 0 (record_list records.now) }
{
    for (i, record) in records.chunks_exact(4).enumerate() {
        check_record(sizes, i, record[0], record[1], record[2])?;
    }
    Ok(())
}

// Writes a cost at a place of the list of costs, which begins at `start`, unless a greater stamp stands there.
fn write_record(
    image: &mut [u8],
    start: usize,
    stamps: &mut [u32],
    place: usize,
    cost: u32,
    stamp: u32,
)
    requires { (place < length stamps.old) × (start + 4 * place + 4 ≤ length image.old) }
    ensures stamps_after { stamps.new ≡ cond (leb (get_or stamps.old place 0) stamp) (set stamps.old place stamp) stamps.old }
    ensures image_after { image.new ≡ cond (leb (get_or stamps.old place 0) stamp) (take (start + 4 * place) image.old ++ (bytes 4 cost ++ drop (start + 4 * place + 4) image.old)) image.old }
{
    if stamps[place] <= stamp {
        stamps[place] = stamp;
        cost.write(image, start + 4 * place);
    }
}

// Writes the winning costs of a list that passed. At first each cost's stamp is 0.
fn write_records(image: &mut [u8], sizes: Sizes, records: &[u32])
    requires { (sizes.m ≤ 1000) × (sizes.k ≤ 8) × (length image.old ≡ total sizes.m sizes.k) × (records_fault sizes.edition sizes.m sizes.k 0 (record_list records.now) ≡ sound) }
    ensures { (costs : List ℕ) → length costs ≡ sizes.m * sizes.k → image.old ≡ take (costs_start sizes.m) image.old ++ encode 4 costs → image.new ≡ take (costs_start sizes.m) image.old ++ encode 4 (costs_after sizes.m (record_list records.now) 0 costs) }
{
    let mut room = [0u32; 8000];
    let stamps = &mut room[..cost_count(sizes.m, sizes.k) as usize];
    let m = sizes.m as usize;
    let start = costs_start(sizes.m) as usize;
    for record in records.chunks_exact(4) {
        let column = record[1] as usize;
        let place = (column - 1) * m + record[0] as usize;
        write_record(image, start, stamps, place, record[2], record[3]);
    }
}

// The image's own rows, and among them row 4 for the length of the list, which is due only if no row up to 4 of
// the image is. Which rows these are is said by their numbers, as in `both_fault` and in the table. A
// record stays four numbers in a row, since C lends the list so.
fn check_both(image: &[u8], records: &[u32]) -> Result<Sizes, Refusal>
    ensures answer { answer size_list result ≡ outcome (both_fault image.now records.now) (sizes image.now) }
    ensures bytes { AllBytes image.now }
{
    let answer = check(image);
    if records.len() % 4 == 0 {
        return answer;
    }
    // `let .. else`: the specification asks for this form (docs/THEOREMS.md)
    let Err(refusal) = answer else {
        return Err(Refusal::WrongField);
    };
    if refusal.number() <= 4 {
        return answer;
    }
    Err(Refusal::WrongField)
}

// REFERENCE, section 4.10.
pub fn update(image: &mut [u8], records: &[u32]) -> Result<(), Refusal>
    ensures result_value { answer no_values result ≡ update_outcome image.old records.now }
    ensures image_after { image.new ≡ after (update_fault image.old records.now) (image_after image.old (record_list records.now)) image.old }
    ensures updates { update_fault image.old records.now ≡ sound → Updates image.old (record_list records.now) }
{
    let sizes = check_both(image, records)?;
    check_records(sizes, records)?;
    write_records(image, sizes, records);
    Ok(())
}
