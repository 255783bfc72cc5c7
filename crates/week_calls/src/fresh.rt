// Fresh: a week that begins with every road open.
ghost use Rattle.std.specs.Prelude.{◌≡◌, length};
ghost use Rattle.outcomes.specs.Calls.{cleared};
ghost use Rattle.week_calls.specs.Weeks.{fresh_fault, fresh_week, fresh_outcome};
ghost use Rattle.image.specs.Answers.{answer, one_number};
ghost use Rattle.week_calls.specs.Promise.{KeptWeek};

use super::running::run;
use super::week::{Question, Weekly, blank};
use loading::Network;
use outcomes::check_ranking;

// REFERENCE, section 4.12. The first three promises say what is given and cleared; the last one is about the whole
// week, section 9.5.
pub fn fresh(
    image: &[u8],
    column: u32,
    start: u32,
    goal: u32,
    wanted: u32,
    work: &mut [u32],
) -> Weekly
    ensures week_value { result.week ≡ fresh_week image.now column start goal wanted (length work.old) }
    ensures tally_value { answer one_number result.tally ≡ fresh_outcome image.now column start goal wanted (length work.old) }
    ensures work_after { work.new ≡ cleared (fresh_fault image.now column start goal wanted (length work.old)) work.old }
    ensures kept_week { KeptWeek image.now column start goal wanted (length work.old) }
{
    // no `?`: what is refused comes with a state
    let sizes = match check_ranking(image, column, start, goal, wanted, work.len()) {
        Ok(sizes) => sizes,
        Err(refusal) => {
            return Weekly {
                week: blank(),
                tally: Err(refusal),
            };
        }
    };
    let asked = Question {
        column,
        start,
        goal,
        wanted,
    };
    let network = Network { image, sizes };
    let week = run(&network, asked, [0u64; 16], work);
    Weekly { week, tally: Ok(0) }
}
