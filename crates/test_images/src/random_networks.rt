// Random networks, and random networks with something changed: the calls on their lists and their
// image.
use super::image_calls::{build_agrees, note_image};
use super::image_networks::note_network;
use super::plain_answers::build_answer;
use arrayvec::ArrayVec;
use std::io;
use test_fixtures::closing::CLOSED;
use test_fixtures::networks::{SmallNetwork, draw_network, number_at};
use test_fixtures::plain_image::Network;
use test_fixtures::random::note_networks;
use test_fixtures::report::{Call, Report};

// The calls on a sound network.
fn note_sound(report: Report, network: Network) -> Report {
    let image: ArrayVec<u8, 2040> = network.image();
    note_network(report, network, image.as_slice())
}

// The calls on lists that may be in error, held to the plain answers.
fn note_lists(report: Report, network: Network) -> Report {
    let image: ArrayVec<u8, 2040> = network.image();
    let room = image.len();
    let expected = build_answer(network, room);
    let written = if expected.is_ok() {
        image.as_slice()
    } else {
        &[]
    };
    note_image(report, image.as_slice()).note(
        Call::Build,
        build_agrees(network, room, expected, written),
    )
}

// A number at a limit: 999,998 to 1,000,002 in edition 1, and in edition 2 also the mark and the number
// below it. The edition is a number here, as in Header.
fn limit_cost(edition: u32, number: u32) -> u32 {
    if edition == 1 {
        return 999998 + number % 5;
    }
    match number % 4 {
        0 => 1000000,
        1 => 1000001,
        2 => CLOSED - 1,
        _ => CLOSED,
    }
}

// Changes one content of a list, if it has one.
fn put<T: Copy>(list: &mut [T], place: u32, content: T) {
    if !list.is_empty() {
        let at = place as usize % list.len();
        list[at] = content;
    }
}

// What is changed of a network: a node number, a cost, both, k, n or the edition.
#[derive(Clone, Copy, PartialEq, Eq)]
enum Change {
    Node,
    Cost,
    NodeAndCost,
    Columns,
    Nodes,
    Edition,
}

// Which change: one of five in edition 1, and one of six in edition 2.
fn change_of(edition: u32, number: u32) -> Change {
    let changes = if edition == 1 { 5 } else { 6 };
    match number % changes {
        0 => Change::Node,
        1 => Change::Cost,
        2 => Change::NodeAndCost,
        3 => Change::Columns,
        4 => Change::Nodes,
        _ => Change::Edition,
    }
}

// Another node number, 0 to 9, at a place.
fn change_node(network: &mut SmallNetwork, place: u32, number: u32) {
    put(network.nodes.as_mut_slice(), place, (number % 10) as u16);
}

fn change_cost(network: &mut SmallNetwork, place: u32, number: u32) {
    let cost = limit_cost(network.header.edition, number);
    put(network.costs.as_mut_slice(), place, cost);
}

// The calls after one change, as the drawn numbers have it. A size or an edition is changed to another one of 0 to 9.
fn note_changed(report: Report, mut network: SmallNetwork, numbers: &[u32]) -> Report {
    let place = number_at(numbers, 5);
    let number = number_at(numbers, 6);
    match change_of(network.header.edition, number_at(numbers, 4)) {
        Change::Node => change_node(&mut network, place, number),
        Change::Cost => change_cost(&mut network, place, number),
        Change::NodeAndCost => {
            change_node(&mut network, place, number);
            change_cost(&mut network, place, number);
        }
        Change::Columns => network.header.k = number % 10,
        Change::Nodes => network.header.n = number % 10,
        Change::Edition => network.header.edition = number % 10,
    }
    note_lists(report, network.lent())
}

// 3,000 networks of an edition.
fn networks<Note>(edition: u32, note: Note) -> Report
where
    Note: Fn(Report, SmallNetwork, &[u32]) -> Report,
    requires note_is_callable { Note.IsAlwaysCallable note }
{
    let draw = |numbers: &[u32], _: u32| draw_network(edition, numbers);
    note_networks(1, &mut [0; 520], 3000, draw, note)
}

// Networks of an edition as they are drawn.
fn sound(edition: u32) -> Report {
    networks(
        edition,
        |report, network, _| note_sound(report, network.lent()),
    )
}

pub fn run(rt: &impl Print) -> io::Result<()> {
    sound(1).print(rt, "random networks")?;
    networks(1, note_changed).print(rt, "changed networks")?;
    sound(2).print(rt, "random networks of edition 2")?;
    networks(2, note_changed).print(rt, "changed networks of edition 2")
}
