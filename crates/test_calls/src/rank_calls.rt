// Rank, held to the answer that it should give and to what the slices that are lent to it should
// hold after it.
use super::answers::{Answer, answer_of, refusal, single};
use test_fixtures::numbers::{count, places};
use test_fixtures::report::{Call, Report};
use test_fixtures::slices::{Pattern, holds, is_filled};

// Places for 256 paths of eight nodes and the workspace for them, and some more.
const ROW_PLACES: usize = 2060;

const COST_PLACES: usize = 270;

pub const WORK_PLACES: usize = 6370;

// What is asked of a call that ranks paths: K is `wanted`.
#[derive(Clone, Copy)]
pub struct Request {
    pub column: u32,
    pub start: u32,
    pub goal: u32,
    pub wanted: u32,
}

// How many places of each slice are lent: of that for rows of nodes, of that for costs and of the workspace. Robust has
// one row, its path, and no costs.
#[derive(Clone, Copy)]
pub struct Rooms {
    pub rows: usize,
    pub costs: usize,
    pub work: usize,
}

// What Rank needs for K paths of a network of n nodes. The tests have no K above 257.
pub fn needed_rooms(n: u32, wanted: u32) -> Rooms {
    Rooms {
        rows: places(wanted, n),
        costs: count(wanted as usize) as usize,
        work: places(wanted % 1000 + 1, n % 1000 + 16) + places(16, n) + 64,
    }
}

// The same, and 9 places more of each.
pub fn longer(given: Rooms) -> Rooms {
    Rooms {
        rows: count(given.rows) as usize + 9,
        costs: count(given.costs) as usize + 9,
        work: count(given.work) as usize + 9,
    }
}

// What the workspace holds after a call with this answer: nothing was written if it is a refusal,
// and all of it is 0 if not.
pub fn work_after(answer: Answer) -> u32 {
    if answer.is_ok() { 0 } else { u32::PATTERN }
}

// Whether Rank gives the answer, and writes these rows and costs and no others, with slices that
// hold the pattern. After a result the workspace is 0.
pub fn rank_into(
    image: &[u8],
    request: Request,
    rows: &mut [u16],
    costs: &mut [u32],
    work: &mut [u32],
    expected: Answer,
    written_rows: &[u16],
    written_costs: &[u32],
) -> bool {
    let answer = answer_of(column_calls::rank::rank(
        image,
        request.column,
        request.start,
        request.goal,
        request.wanted,
        rows,
        costs,
        work,
    ));
    answer == expected
        && holds(rows, written_rows)
        && holds(costs, written_costs)
        && is_filled(work, work_after(expected))
}

// The same, with slices made for it: enough for networks of up to eight nodes.
pub fn rank_agrees(
    image: &[u8],
    request: Request,
    lent: Rooms,
    expected: Answer,
    written_rows: &[u16],
    written_costs: &[u32],
) -> bool {
    let mut rows = [u16::PATTERN; ROW_PLACES];
    let mut costs = [u32::PATTERN; COST_PLACES];
    let mut work = [u32::PATTERN; WORK_PLACES];
    match (
        rows.get_mut(..lent.rows),
        costs.get_mut(..lent.costs),
        work.get_mut(..lent.work),
    ) {
        (Some(rows), Some(costs), Some(work)) => rank_into(
            image,
            request,
            rows,
            costs,
            work,
            expected,
            written_rows,
            written_costs,
        ),
        _ => false,
    }
}

// Rank with slices of which one is a place too short.
pub fn note_short_ranks(
    mut report: Report,
    image: &[u8],
    request: Request,
    needed: Rooms,
) -> Report {
    let short_rows = Rooms {
        rows: needed.rows.saturating_sub(1),
        ..needed
    };
    let short_costs = Rooms {
        costs: needed.costs.saturating_sub(1),
        ..needed
    };
    let short_work = Rooms {
        work: needed.work.saturating_sub(1),
        ..needed
    };
    for lent in [short_rows, short_costs, short_work] {
        let agrees = rank_agrees(image, request, lent, refusal(13, 0), &[], &[]);
        report = report.note(Call::Rank, agrees);
    }
    report
}

// Rank of a network of n nodes with these rows and costs as its result, with slices that are exactly
// long enough, with longer ones and with ones of which one is a place too short.
pub fn note_rank(
    report: Report,
    image: &[u8],
    n: u32,
    request: Request,
    rows: &[u16],
    costs: &[u32],
) -> Report {
    let needed = needed_rooms(n, request.wanted);
    let found = single(count(costs.len()));
    let exact = rank_agrees(image, request, needed, found, rows, costs);
    let more = rank_agrees(image, request, longer(needed), found, rows, costs);
    note_short_ranks(
        report.note(Call::Rank, exact).note(Call::Rank, more),
        image,
        request,
        needed,
    )
}
