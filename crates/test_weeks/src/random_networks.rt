// Random networks of 2 to 8 nodes, of the editions 1 and 2 in turn.
use super::all_roads::note_all_roads;
use super::drawing::Drawn;
use super::made_states::note_made_states;
use super::random_weeks::note_week;
use arrayvec::ArrayVec;
use std::{array, io};
use test_fixtures::networks::{SmallNetwork, draw_network, number_at};
use test_fixtures::random::note_networks;
use test_fixtures::report::Report;

// A network drawn with more arcs, and fewer of them closed in columns, so that there are paths; but one pair of four is
// as the numbers have it.
fn draw_denser(numbers: &[u32], i: u32) -> SmallNetwork {
    let mut denser = [0u32; 520];
    for (place, number) in denser.iter_mut().zip(numbers) {
        *place = *number;
    }
    if i / 2 % 4 != 0 {
        denser[2] = 2 + denser[2] % 3;
        denser[7] %= 16;
    }
    draw_network(1 + i % 2, &denser)
}

// What is made of a network: an enum, as a closure that hands on to another is not known to be callable.
#[derive(Clone, Copy)]
enum Kind {
    Week,
    AllRoads,
    MadeStates,
}

fn note_kind(kind: Kind, report: Report, small: SmallNetwork, numbers: &[u32]) -> Report {
    let network = small.lent();
    let image: ArrayVec<u8, 2040> = network.image();
    // What Drawn refers to is all made here, and so lives equally long.
    let numbers: [u32; 620] = array::from_fn(|i| number_at(numbers, i));
    let drawn = Drawn {
        network,
        image: image.as_slice(),
        numbers: &numbers,
    };
    match kind {
        Kind::Week => note_week(report, drawn),
        Kind::AllRoads => note_all_roads(report, drawn),
        Kind::MadeStates => note_made_states(report, drawn),
    }
}

// So many networks, of the editions 1 and 2 in turn.
fn networks(kind: Kind, count: u32) -> Report {
    note_networks(
        1,
        &mut [0; 620],
        count,
        draw_denser,
        |report, small, numbers| note_kind(kind, report, small, numbers),
    )
}

pub fn run(rt: &impl Print) -> io::Result<()> {
    networks(Kind::Week, 2400).print(rt, "random weeks")?;
    networks(Kind::AllRoads, 240).print(rt, "all roads closed and reopened")?;
    networks(Kind::MadeStates, 2000).print(rt, "states made otherwise")
}
