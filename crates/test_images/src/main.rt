// The tests of the image layer, and of all calls on images and numbers that they refuse. Each case
// holds what a call gave to what docs/REFERENCE.md says that it gives, and the program prints, for each
// kind of case, how many agreed and how many differed.
//
// The file image_calls.rt holds one call to its answer, and the others make the cases. The answers
// come from REFERENCE, section 8, or from plain_answers.rt, which is written apart from the library.
// The calls of the path layer on what they take are tested by the program test_routes.
#![tactic(auto)]

mod editions;
mod image_calls;
mod image_changes;
mod image_networks;
mod image_refusals;
mod path_refusals;
mod plain_answers;
mod random_networks;
mod rank_refusals;
mod robust_refusals;

use std::io;
use test_fixtures::report::Report;

// What `note` comes to after each row of a table.
fn note_rows<Row: Copy, Note>(rows: &[Row], note: Note) -> Report
where
    Note: Fn(Report, Row) -> Report,
    requires note_is_callable { Note.IsAlwaysCallable note }
{
    let mut report = Report::new();
    for row in rows {
        report = note(report, *row);
    }
    report
}

fn main(rt: HostRuntime) -> io::Result<()> {
    image_networks::run(&rt)?;
    image_refusals::run(&rt)?;
    image_changes::run(&rt)?;
    editions::run(&rt)?;
    random_networks::run(&rt)?;
    path_refusals::run(&rt)?;
    rank_refusals::run(&rt)?;
    robust_refusals::run(&rt)
}
