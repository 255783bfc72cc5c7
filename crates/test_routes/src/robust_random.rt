// Random networks: Robust, held to the plain enumeration of all paths.
use super::rank_random::lent;
use test_calls::answers::{Answer, left_open, refusal, settled};
use test_calls::rank_calls::Request;
use test_calls::robust_calls::{needed_route_rooms, note_short_robusts, robust_agrees};
use test_enumerate::{Choice, Costs, Path};
use test_fixtures::numbers::{count, narrow};
use test_fixtures::report::{Call, Report};

// The answer that the enumeration gives, as Robust's, for a route of so many nodes.
fn answer_of(choice: Choice, nodes: usize) -> Answer {
    let length = count(nodes);
    let figure = narrow(choice.measure.figure);
    let worst = choice.measure.worst;
    let counted = count(choice.count);
    match choice.floor {
        None => settled(length, figure, worst, counted),
        Some(floor) => left_open(length, figure, worst, counted, narrow(floor)),
    }
}

// Robust where the first ranked paths are these: all of them, or K + 1.
fn robust_gives(image: &[u8], n: u32, request: Request, bests: Costs, paths: &[Path]) -> bool {
    let Request { column, wanted, .. } = request;
    let Some(choice) = test_enumerate::robust(column, wanted as usize, paths, bests) else {
        return false;
    };
    let row = choice.route;
    let length = test_enumerate::length(row);
    let found = answer_of(choice, length);
    robust_agrees(
        image,
        request,
        lent(needed_route_rooms(n, request.wanted), request),
        found,
        &row[..length],
    )
}

// Robust where these are the paths that are open in every column. Its answer says nothing of a path
// behind the first K + 1, so these are put into its order.
fn robust_ranked(image: &[u8], n: u32, request: Request, bests: Costs, paths: &mut [Path]) -> bool {
    let looked_at = count(request.wanted as usize) + 1;
    let ranked = looked_at.min(count(paths.len())) as usize;
    test_enumerate::rank(request.column, paths);
    match paths.get(..ranked) {
        Some(first) => robust_gives(image, n, request, bests, first),
        None => false,
    }
}

// Robust, by all paths with their costs. Those that are open in every column are put in front.
fn robust_holds(image: &[u8], n: u32, request: Request, bests: Costs, paths: &mut [Path]) -> bool {
    let open = test_enumerate::open_everywhere(paths);
    if open == 0 {
        return robust_agrees(
            image,
            request,
            lent(needed_route_rooms(n, request.wanted), request),
            refusal(15, 0),
            &[],
        );
    }
    match paths.get_mut(..open) {
        Some(listed) => robust_ranked(image, n, request, bests, listed),
        None => false,
    }
}

// Robust for a pair of nodes in a column, and in column 1 also with slices that are too short.
pub fn note_robusts(
    report: Report,
    image: &[u8],
    n: u32,
    request: Request,
    bests: Costs,
    paths: &mut [Path],
) -> Report {
    let agrees = robust_holds(image, n, request, bests, paths);
    let noted = report.note(Call::Robust, agrees);
    if request.column != 1 {
        return noted;
    }
    let needed = needed_route_rooms(n, request.wanted);
    note_short_robusts(noted, image, request, needed)
}
