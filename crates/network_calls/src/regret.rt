// Regret: the figure and the worst column of a path that is open in every column.
ghost use Rattle.std.specs.Prelude.{◌≡◌};
ghost use Rattle.image.specs.Answers.{answer};
ghost use Rattle.network_calls.specs.Answers.{measure_list};
ghost use Rattle.outcomes.specs.Calls.{regret_outcome};

use super::measured::{Measure, measure_list};
use image::Refusal;
use loading::Network;
use outcomes::check_ends;

// REFERENCE, section 4.4.
pub fn regret(image: &[u8], start: u32, goal: u32, nodes: &[u16]) -> Result<Measure, Refusal>
    ensures { answer measure_list result ≡ regret_outcome image.now start goal nodes.now }
{
    let sizes = check_ends(image, start, goal)?;
    let network = Network { image, sizes };
    measure_list(&network, start, goal, nodes)
}
