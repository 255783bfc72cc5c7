// Search: the path whose greatest regret is least, by a search that holds only one partial route.
ghost use Rattle.std.specs.Prelude.{◌≡◌, length};
ghost use Rattle.image.specs.Outcome.{outcome, after};
ghost use Rattle.image.specs.Calls.{sizes};
ghost use Rattle.image.specs.Answers.{answer, size_list};
ghost use Rattle.search_calls.specs.Answers.{found_list};
ghost use Rattle.search_calls.specs.Calls.{entry_rows, search_fault, search_path, search_outcome};
ghost use Rattle.search_calls.specs.Demands.{KeptSearch};

use super::deciding::{Found, decide};
use image::{Refusal, Sizes};
use loading::Network;
use outcomes::check_ends;

// Search's rows before 15, for a path slice of this length.
fn check_room(image: &[u8], start: u32, goal: u32, room: usize) -> Result<Sizes, Refusal>
    ensures { answer size_list result ≡ outcome (entry_rows image.now start goal room) (sizes image.now) }
{
    let sizes = check_ends(image, start, goal)?;
    if room < sizes.n as usize {
        return Err(Refusal::SliceTooShort);
    }
    Ok(sizes)
}

// REFERENCE, section 4.11. The first two promises say what is given and written; the last one is what the
// answer is: section 4.11, with what it has in common with Robust.
pub fn search(
    image: &[u8],
    start: u32,
    goal: u32,
    limit: u32,
    path: &mut [u16],
) -> Result<Found, Refusal>
    ensures result_value { answer found_list result ≡ search_outcome image.now start goal limit (length path.old) }
    ensures path_after { path.new ≡ after (search_fault image.now start goal limit (length path.old)) (search_path image.now start goal) path.old }
    ensures kept_search { KeptSearch image.now start goal limit (length path.old) }
{
    let sizes = check_room(image, start, goal, path.len())?;
    let network = Network { image, sizes };
    decide(&network, start, goal, limit, path)
}
