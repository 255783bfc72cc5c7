// A full run: Robust on the image without the closed arcs.
// Arrays have room for the largest network: the library allocates nothing, its memory is fixed.
ghost use Rattle.std.specs.Prelude.{◌≡◌, length, replicate};
ghost use Rattle.loading.specs.Networks.{net};
ghost use Rattle.week_calls.specs.Weeks.{run_week};
ghost use Rattle.week_calls.specs.Asked.{Asked};
ghost use Rattle.week_calls.specs.Answers.{made};

use super::week::{Question, Week, blank};
use image::Refusal;
use listing::clear;
use loading::Network;
use network_calls::{Decision, choose_left};

// Robust's answer as a state, with the route that it has written.
fn hold(closed: [u64; 16], route: [u16; 200], answer: Result<Decision, Refusal>) -> Week
    ensures { result ≡ made closed route answer }
{
    match answer {
        Ok(found) => Week {
            closed,
            route,
            state: if found.floor.is_some() { 2 } else { 1 },
            length: found.length,
            figure: found.figure,
            worst: found.worst,
            count: found.count,
            floor: found.floor.unwrap_or(0),
        },
        Err(_) => Week {
            closed,
            route,
            state: 15,
            ..blank()
        },
    }
}

// The state with these closed arcs, made anew. The workspace is cleared.
pub fn run(network: &Network<'_>, asked: Question, closed: [u64; 16], work: &mut [u32]) -> Week
    requires { Asked network.now.image.now asked work.old }
    ensures value { result ≡ run_week (net network.now) asked.column asked.start asked.goal asked.wanted closed }
    ensures work_after { work.new ≡ replicate (length work.old) 0 }
{
    let mut route = [0u16; 200];
    let answer = choose_left(
        network,
        &closed,
        asked.column,
        asked.start,
        asked.goal,
        asked.wanted,
        &mut route,
        work,
    );
    clear(work);
    hold(closed, route, answer)
}
