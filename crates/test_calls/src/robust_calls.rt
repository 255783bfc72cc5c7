// Robust, held to the answer that it should give and to what the slices that are lent to it should
// hold after it.
use super::answers::{Answer, answer_of, refusal};
use super::rank_calls::{Request, Rooms, WORK_PLACES, longer, needed_rooms, work_after};
use image::Refusal;
use network_calls::Decision;
use network_calls::robust::robust;
use test_fixtures::numbers::count;
use test_fixtures::report::{Call, Report};
use test_fixtures::slices::{Pattern, holds, is_filled};

// Places for a path of eight nodes, and some more.
const PATH_PLACES: usize = 20;

// What Robust needs in a network of n nodes: a place for each, and Rank's workspace.
pub fn needed_route_rooms(n: u32, wanted: u32) -> Rooms {
    Rooms {
        rows: count(n as usize) as usize,
        costs: 0,
        work: needed_rooms(n, wanted).work,
    }
}

// Robust's result for a request.
pub fn robust_of(
    image: &[u8],
    request: Request,
    path: &mut [u16],
    work: &mut [u32],
) -> Result<Decision, Refusal> {
    let Request {
        column,
        start,
        goal,
        wanted,
    } = request;
    robust(image, column, start, goal, wanted, path, work)
}

// Whether Robust gives the answer, and writes these nodes and no others, with slices that hold the
// pattern. After a result the workspace is 0.
pub fn robust_into(
    image: &[u8],
    request: Request,
    path: &mut [u16],
    work: &mut [u32],
    expected: Answer,
    written: &[u16],
) -> bool {
    let answer = answer_of(robust_of(image, request, path, work));
    answer == expected && holds(path, written) && is_filled(work, work_after(expected))
}

// The same, with slices made for it: enough for networks of up to eight nodes.
pub fn robust_agrees(
    image: &[u8],
    request: Request,
    lent: Rooms,
    expected: Answer,
    written: &[u16],
) -> bool {
    let mut path = [u16::PATTERN; PATH_PLACES];
    let mut work = [u32::PATTERN; WORK_PLACES];
    match (path.get_mut(..lent.rows), work.get_mut(..lent.work)) {
        (Some(path), Some(work)) => robust_into(image, request, path, work, expected, written),
        _ => false,
    }
}

// Robust with slices of which one is a place too short. Rank has the like for other slices.
pub fn note_short_robusts(
    mut report: Report,
    image: &[u8],
    request: Request,
    needed: Rooms,
) -> Report {
    let short_path = Rooms {
        rows: needed.rows.saturating_sub(1),
        ..needed
    };
    let short_work = Rooms {
        work: needed.work.saturating_sub(1),
        ..needed
    };
    for lent in [short_path, short_work] {
        let agrees = robust_agrees(image, request, lent, refusal(13, 0), &[]);
        report = report.note(Call::Robust, agrees);
    }
    report
}

// Robust of a network of n nodes with this answer and these nodes as its result, with slices that are
// exactly long enough, with longer ones and with ones of which one is a place too short.
pub fn note_robust(
    report: Report,
    image: &[u8],
    n: u32,
    request: Request,
    found: Answer,
    nodes: &[u16],
) -> Report {
    let needed = needed_route_rooms(n, request.wanted);
    let exact = robust_agrees(image, request, needed, found, nodes);
    let more = robust_agrees(image, request, longer(needed), found, nodes);
    note_short_robusts(
        report.note(Call::Robust, exact).note(Call::Robust, more),
        image,
        request,
        needed,
    )
}
