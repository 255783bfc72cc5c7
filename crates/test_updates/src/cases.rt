// Update on network S, with answers that are written down.
use super::plain_update::{update_agrees, update_gives};
use std::io;
use test_fixtures::case_images::network_s;
use test_fixtures::networks::{S_COSTS, S_NODES};
use test_fixtures::plain_image::{Header, Network, first_edition, second_edition};
use test_fixtures::report::{Call, Report};

fn note(report: Report, header: Header, list: &[u32]) -> Report {
    let network = Network::new(header, &S_NODES, &S_COSTS);
    report.note(Call::Update, update_agrees(network, list))
}

// Accepted lists, and the errors of records in all orders: each record is examined, also one that does not
// count.
fn note_lists(mut report: Report, header: Header) -> Report {
    report = note(report, header, &[]);
    report = note(report, header, &[0, 1, 8, 5]);
    report = note(
        report,
        header,
        &[0, 1, 8, 5, 4, 2, 3, 0, 0, 1, 9, 5, 0, 1, 7, 4],
    );
    report = note(report, header, &[4, 2, 1000000, 4294967295]);
    report = note(report, header, &[0, 1, 4294967295, 5]);
    report = note(report, header, &[0, 1, 4294967295, 5, 0, 1, 4, 6]);
    report = note(report, header, &[0, 1, 1000001, 0]);
    report = note(report, header, &[5, 3, 1000001, 0]);
    report = note(report, header, &[4, 3, 1000001, 0]);
    report = note(report, header, &[4, 0, 1000001, 0]);
    report = note(report, header, &[0, 1, 8, 5, 0, 1, 1000001, 4]);
    report = note(report, header, &[0, 1, 8, 5, 0, 1, 1000001, 4, 5, 1, 0, 0]);
    report = note(report, header, &[0, 1, 8]);
    note(report, header, &[5, 1, 8, 5, 0])
}

// Image and list in error at once: byte `at` of network S's image has been given a content.
fn note_wrong(report: Report, at: usize, content: u8, list: &[u32], number: u32) -> Report {
    let mut image = network_s();
    if let Some(byte) = image.get_mut(at) {
        *byte = content;
    }
    let after = image;
    let agrees = update_gives(&mut image, list, Some((number, 0)), &after);
    report.note(Call::Update, agrees)
}

// Rows 1 to 3 stand before row 4, which a list may be the reason of, and rows 5 to 9 behind it.
fn note_images(mut report: Report) -> Report {
    report = note_wrong(report, 0, 7, &[1], 2);
    report = note_wrong(report, 2, 1, &[1], 3);
    report = note_wrong(report, 20, 1, &[1], 4);
    report = note_wrong(report, 20, 1, &[9, 9, 9, 9], 4);
    report = note_wrong(report, 24, 9, &[1], 4);
    report = note_wrong(report, 24, 9, &[9, 9, 9, 9], 6);
    report = note_wrong(report, 46, 255, &[1], 4);
    note_wrong(report, 46, 255, &[9, 9, 9, 9], 9)
}

pub fn run(rt: &impl Print) -> io::Result<()> {
    let report = note_lists(Report::new(), first_edition(4, 2));
    let both = note_lists(report, second_edition(4, 2));
    note_images(both).print(rt, "network S")
}
