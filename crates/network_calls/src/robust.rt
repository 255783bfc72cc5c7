// Robust: the path whose greatest regret is least.
ghost use Rattle.std.specs.Prelude.{◌≡◌, length};
ghost use Rattle.image.specs.Outcome.{outcome, after};
ghost use Rattle.image.specs.Calls.{sizes};
ghost use Rattle.image.specs.Answers.{answer, size_list};
ghost use Rattle.network_calls.specs.Answers.{decision_list};
ghost use Rattle.outcomes.specs.Calls.{robust_rows, robust_fault, robust_of, chosen, robust_outcome, cleared};
ghost use Rattle.outcomes.specs.Demands.{Kept3};

use super::chosen::choose_whole;
use choosing::Decision;
use image::{Refusal, Sizes};
use loading::Network;
use outcomes::check_ranking;

// Robust's rows before 15, for slices of these lengths.
fn check_robust(
    image: &[u8],
    column: u32,
    start: u32,
    goal: u32,
    wanted: u32,
    path: usize,
    work: usize,
) -> Result<Sizes, Refusal>
    ensures { answer size_list result ≡ outcome (robust_rows image.now column start goal wanted path work) (sizes image.now) }
{
    let sizes = check_ranking(image, column, start, goal, wanted, work)?;
    if path < sizes.n as usize {
        return Err(Refusal::SliceTooShort);
    }
    Ok(sizes)
}

// REFERENCE, section 4.6. The first three promises say what is given and written; the last one is demand 3, section 9.3.
pub fn robust(
    image: &[u8],
    column: u32,
    start: u32,
    goal: u32,
    wanted: u32,
    path: &mut [u16],
    work: &mut [u32],
) -> Result<Decision, Refusal>
    ensures result_value { answer decision_list result ≡ robust_outcome image.now column start goal wanted (length path.old) (length work.old) }
    ensures path_after { path.new ≡ after (robust_fault image.now column start goal wanted (length path.old) (length work.old)) (chosen (robust_of image.now column start goal wanted)) path.old }
    ensures work_after { work.new ≡ cleared (robust_fault image.now column start goal wanted (length path.old) (length work.old)) work.old }
    ensures kept3 { Kept3 image.now column start goal wanted (length path.old) (length work.old) }
{
    let sizes = check_robust(image, column, start, goal, wanted, path.len(), work.len())?;
    let network = Network { image, sizes };
    choose_whole(&network, column, start, goal, wanted, path, work)
}
