// Shortest: the first path of the ranking order.
// Arrays have room for the largest network: the library allocates nothing, its memory is fixed.
ghost use Rattle.std.specs.Prelude.{◌≡◌, ◌≤◌, length};
ghost use Rattle.image.specs.Outcome.{outcome, after};
ghost use Rattle.image.specs.Calls.{sizes};
ghost use Rattle.image.specs.Answers.{answer, size_list};
ghost use Rattle.column_calls.specs.Answers.{path_list};
ghost use Rattle.outcomes.specs.Calls.{shortest_rows, path_row, shortest_fault, shortest_of, shortest_values, shortest_outcome};
ghost use Rattle.loading.specs.Networks.{net};

use super::first_path::find;
use super::trip::Trip;
use branching::Tail;
use image::{Refusal, Sizes};
use loading::Network;
use outcomes::{check_search, write_path};

// What Shortest gives: the length and the cost of the path, in the 32 bits of the C interface. A `Tail` has them
// in the numbers of the search; no `From` makes one of the other, since a `From` can't ask that they fit.
#[derive(Clone, Copy, Debug, PartialEq, Eq)]
pub struct Path {
    pub length: u32,
    pub cost: u32,
}

// Shortest's rows before 15, for a slice of `room` places.
fn check_shortest(
    image: &[u8],
    column: u32,
    start: u32,
    goal: u32,
    room: usize,
) -> Result<Sizes, Refusal>
    ensures { answer size_list result ≡ outcome (shortest_rows image.now column start goal room) (sizes image.now) }
{
    let sizes = check_search(image, column, start, goal)?;
    if room < sizes.n as usize {
        return Err(Refusal::SliceTooShort);
    }
    Ok(sizes)
}

// Row 15, and the path, which is laid out before it is written.
fn write_shortest(trip: &Trip<'_>, path: &mut [u16]) -> Result<Path, Refusal>
    requires { (net trip.now.network).nodes ≤ length path.old }
    ensures result_value { answer path_list result ≡ outcome (path_row trip.now.network.image.now trip.now.column trip.now.start trip.now.goal) (shortest_values trip.now.network.image.now trip.now.column trip.now.start trip.now.goal) }
    ensures path_after { path.new ≡ after (path_row trip.now.network.image.now trip.now.column trip.now.start trip.now.goal) (shortest_of trip.now.network.image.now trip.now.column trip.now.start trip.now.goal) path.old }
{
    let mut route_room = [0u16; 200];
    let route = &mut route_room[..trip.network.sizes.n as usize];
    let found = find(trip, route);
    let Some(Tail { len, cost }) = found else {
        return Err(Refusal::NoPath);
    };
    write_path(route, len, path);
    Ok(Path {
        length: len as u32,
        cost: cost as u32,
    })
}

// REFERENCE, section 4.3.
pub fn shortest(
    image: &[u8],
    column: u32,
    start: u32,
    goal: u32,
    path: &mut [u16],
) -> Result<Path, Refusal>
    ensures result_value { answer path_list result ≡ shortest_outcome image.now column start goal (length path.old) }
    ensures path_after { path.new ≡ after (shortest_fault image.now column start goal (length path.old)) (shortest_of image.now column start goal) path.old }
{
    let sizes = check_shortest(image, column, start, goal, path.len())?;
    let trip = Trip {
        network: Network { image, sizes },
        column,
        start,
        goal,
    };
    write_shortest(&trip, path)
}
