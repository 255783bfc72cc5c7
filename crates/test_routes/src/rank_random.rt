// Random networks: Rank, held to the plain enumeration of all paths, and Robust by the same paths.
use super::robust_random::note_robusts;
use test_calls::answers::{refusal, single};
use test_calls::rank_calls::{Request, Rooms, longer, needed_rooms, note_short_ranks, rank_agrees};
use test_enumerate::{Costs, Path};
use test_fixtures::networks::number_at;
use test_fixtures::numbers::{count, narrow, places};
use test_fixtures::report::{Call, Report};

// The node at an index of the rows that Rank writes: n places for each path.
fn node_at(n: usize, paths: &[Path], at: usize) -> u16 {
    if n == 0 {
        return 0;
    }
    match paths.get(at / n) {
        Some(path) => path.row.get(at % n).copied().unwrap_or(0),
        None => 0,
    }
}

// Fills a list with the rows that Rank writes: as many as Rank gives, so the list is lent and no array.
fn expect_rows(n: usize, paths: &[Path], rows: &mut [u16]) {
    for (at, node) in rows.iter_mut().enumerate() {
        *node = node_at(n, paths, at);
    }
}

// Fills a list with the costs in column u.
fn expect_costs(u: u32, paths: &[Path], costs: &mut [u32]) {
    for (cost, path) in costs.iter_mut().zip(paths) {
        *cost = narrow(test_enumerate::in_column(path.costs, u));
    }
}

// Slices that are exactly long enough in even columns, and longer in odd ones.
pub fn lent(needed: Rooms, request: Request) -> Rooms {
    if request.column % 2 == 0 {
        return needed;
    }
    longer(needed)
}

// Rank where the ranked paths begin with these, as many as it gives.
fn rank_is(
    image: &[u8],
    n: u32,
    request: Request,
    paths: &[Path],
    rows: &mut [u16],
    costs: &mut [u32],
) -> bool {
    expect_rows(n as usize, paths, rows);
    expect_costs(request.column, paths, costs);
    let found = single(count(costs.len()));
    rank_agrees(
        image,
        request,
        lent(needed_rooms(n, request.wanted), request),
        found,
        rows,
        costs,
    )
}

// The same, with lists made for what it should write.
fn rank_gives(image: &[u8], n: u32, request: Request, given: u32, paths: &[Path]) -> bool {
    let mut rows = [0u16; 2048];
    let mut costs = [0u32; 256];
    let row_count = places(given, n);
    let cost_count = given as usize;
    if 2048 < row_count || 256 < cost_count {
        return false;
    }
    rank_is(
        image,
        n,
        request,
        paths,
        &mut rows[..row_count],
        &mut costs[..cost_count],
    )
}

// Rank, by all paths with their costs, which are put into its order as far as it goes: those that are
// open in the column come first.
fn rank_holds(image: &[u8], n: u32, request: Request, paths: &mut [Path]) -> bool {
    let open = test_enumerate::open_count(request.column, paths);
    if open == 0 {
        return rank_agrees(
            image,
            request,
            lent(needed_rooms(n, request.wanted), request),
            refusal(15, 0),
            &[],
            &[],
        );
    }
    let given = request.wanted.min(count(open));
    test_enumerate::rank(request.column, paths);
    rank_gives(image, n, request, given, paths)
}

// K: 256 in one of 64 cases, and else 1 to 12.
fn drawn_wanted(number: u32) -> u32 {
    let high = number / 65536;
    if high % 64 == 0 {
        return 256;
    }
    1 + high % 12
}

// Rank, and in column 1 also with slices that are too short.
fn note_rank(report: Report, image: &[u8], n: u32, request: Request, paths: &mut [Path]) -> Report {
    let noted = report.note(Call::Rank, rank_holds(image, n, request, paths));
    if request.column != 1 {
        return noted;
    }
    note_short_ranks(noted, image, request, needed_rooms(n, request.wanted))
}

// Rank and Robust for a pair of nodes in column u.
fn note_column(
    report: Report,
    n: u32,
    u: u32,
    code: u32,
    numbers: &[u32],
    image: &[u8],
    bests: Costs,
    paths: &mut [Path],
) -> Report {
    let request = Request {
        column: u,
        start: code % 8 + 1,
        goal: code / 8 + 1,
        wanted: drawn_wanted(number_at(numbers, 8 * (code as usize) + (u as usize))),
    };
    let noted = note_rank(report, image, n, request, paths);
    note_robusts(noted, image, n, request, bests, paths)
}

// Rank and Robust for a pair of nodes in all columns.
pub fn note_ranks(
    mut report: Report,
    n: u32,
    k: u32,
    code: u32,
    numbers: &[u32],
    image: &[u8],
    bests: Costs,
    paths: &mut [Path],
) -> Report {
    for u in 1..=k {
        report = note_column(report, n, u, code, numbers, image, bests, paths);
    }
    report
}
