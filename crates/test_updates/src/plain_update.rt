// What Update does, written apart from the library: of each arc and column the greatest stamp is sought among
// all records, and then the last record that has it.
use arrayvec::ArrayVec;
use record_calls::update::update;
use test_fixtures::numbers::count;
use test_fixtures::plain_image::Network;

// The numbers of a record: arc, column, cost and stamp.
type Record = [u32; 4];

fn is_about(record: Record, arc: u32, column: u32) -> bool {
    record[0] == arc && record[1] == column
}

// The cost that an arc has in a column after the records.
fn cost_after(records: &[Record], arc: u32, column: u32, old: u32) -> u32 {
    let stamps = records
        .iter()
        .filter(|record| is_about(**record, arc, column));
    let greatest = stamps.map(|record| record[3]).max();
    let latest = records.iter().filter(|record| is_about(**record, arc, column)
        && Some(record[3]) == greatest);
    latest.last().map_or(old, |record| record[2])
}

// The cost at a place of the list after the records: arc `at` % m in column `at` / m + 1.
fn cost_at(records: &[Record], m: u32, at: u32, old: u32) -> u32 {
    if m < 1 {
        return old;
    }
    cost_after(records, at % m, (at / m).wrapping_add(1), old)
}

// The image with all costs after the records.
fn image_after(network: Network, records: &[Record]) -> ArrayVec<u8, 2040> {
    let m = network.arc_count();
    let mut costs: ArrayVec<u32, 448> = ArrayVec::new();
    for (at, cost) in network.costs.iter().enumerate() {
        let _ = costs.try_push(cost_at(records, m, count(at), *cost));
    }
    Network::new(network.header, network.nodes, costs.as_slice()).image()
}

// Row 9 is asked by the like in the plain answers of test_images: each plain answer is written apart from all else.
fn is_cost(edition: u32, cost: u32) -> bool {
    cost <= 1000000 || (edition == 2 && cost == 4294967295)
}

// The number of a record's fault, if it has one.
fn fault_of(network: Network, record: Record) -> Option<u32> {
    let [arc, column, cost, _] = record;
    if network.arc_count() <= arc {
        return Some(17);
    }
    if column < 1 || network.header.k < column {
        return Some(18);
    }
    if is_cost(network.header.edition, cost) {
        return None;
    }
    Some(9)
}

// The number and the place of the refusal on an accepted image, if there is one.
fn plain_fault(network: Network, records: &[Record]) -> Option<(u32, u32)> {
    let mut numbered = records.iter().enumerate();
    numbered.find_map(|(index, record)| Some((fault_of(network, *record)?, count(index))))
}

// Whether Update refuses with this number and place, or does not refuse, and leaves these bytes.
pub fn update_gives(
    image: &mut [u8],
    list: &[u32],
    expected: Option<(u32, u32)>,
    after: &[u8],
) -> bool {
    let given = update(image, list).err();
    given.map(|row| (row.number(), row.place())) == expected && *image == *after
}

// Whether Update with a list agrees on the image of a network of up to eight nodes.
pub fn update_agrees(network: Network, list: &[u32]) -> bool {
    let mut image: ArrayVec<u8, 2040> = network.image();
    let (records, rest) = list.as_chunks::<4>();
    let expected = if rest.is_empty() {
        plain_fault(network, records)
    } else {
        Some((4, 0))
    };
    let after: ArrayVec<u8, 2040> = match expected {
        Some(_) => network.image(),
        None => image_after(network, records),
    };
    update_gives(image.as_mut_slice(), list, expected, after.as_slice())
}
