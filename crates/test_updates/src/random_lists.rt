// Update on random networks of 2 to 8 nodes, with lists of up to 40 records that have few stamps and few
// arcs and columns, so that several records are about one cost and many stamps are equal.
ghost use Rattle.std.specs.Prelude.{◌≤◌};

use super::plain_update::update_agrees;
use arrayvec::ArrayVec;
use std::io;
use test_fixtures::networks::{draw_network, number_at};
use test_fixtures::plain_image::Network;
use test_fixtures::random::note_networks;
use test_fixtures::report::{Call, Report};

// The mark in edition 2, else 0. The edition is a number here, as in Header.
fn mark_in(edition: u32) -> u32 {
    if edition == 2 { 4294967295 } else { 0 }
}

// A cost, in edition 2 also the mark, and now and then one that the edition forbids.
fn cost_of(edition: u32, number: u32) -> u32 {
    match number / 64 % 1000 {
        0 => 1000001,
        1 => 4294967295,
        2..=199 => mark_in(edition),
        _ => number / 64 % 1000001,
    }
}

// One of so many numbers from 0 on, and now and then the next.
fn one_of(count: u32, number: u32) -> u32 {
    if count < 1 {
        return 0;
    }
    if number % 256 == 255 {
        return count;
    }
    number / 256 % count
}

// The number at a place of the list, from a drawn one.
fn record_number(network: Network, at: usize, number: u32) -> u32 {
    match at % 4 {
        0 => one_of(network.arc_count(), number),
        1 => one_of(network.header.k, number).wrapping_add(1),
        2 => cost_of(network.header.edition, number),
        _ => number / 64 % 4,
    }
}

// The length of a list: of up to 40 records, and now and then no multiple of four.
fn length_of(number: u32) -> usize
    ensures { result ≤ 160 }
{
    if number % 16 == 15 {
        (number / 16 % 161) as usize
    } else {
        4 * (number / 16 % 41) as usize
    }
}

fn draw_records(network: Network, numbers: &[u32]) -> ArrayVec<u32, 160> {
    let mut records = ArrayVec::new();
    let length = length_of(number_at(numbers, 299));
    for (at, &number) in numbers.iter().skip(300).take(length).enumerate() {
        let _ = records.try_push(record_number(network, at, number));
    }
    records
}

fn note_list(report: Report, network: Network, numbers: &[u32]) -> Report {
    let records = draw_records(network, numbers);
    report.note(Call::Update, update_agrees(network, records.as_slice()))
}

// Networks of the editions 1 and 2 in turn.
pub fn run(rt: &impl Print) -> io::Result<()> {
    let report = note_networks(
        1,
        &mut [0; 520],
        2000,
        |numbers, i| draw_network(1 + i % 2, numbers),
        |report, small, numbers| note_list(report, small.lent(), numbers),
    );
    report.print(rt, "random lists")
}
