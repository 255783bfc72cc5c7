// Rank: the first paths of the ranking order.
ghost use Rattle.std.specs.Prelude.{◌≡◌, length};
ghost use Rattle.image.specs.Outcome.{outcome, after};
ghost use Rattle.image.specs.Calls.{sizes};
ghost use Rattle.image.specs.Answers.{answer, one_number, size_list};
ghost use Rattle.outcomes.specs.Calls.{rank_rows, rank_fault, rank_of, rank_rows_of, rank_costs_of, rank_outcome, cleared};
ghost use Rattle.outcomes.specs.Demands.{Kept2};

use super::first_paths::list;
use super::trip::Trip;
use image::{Refusal, Sizes};
use loading::Network;
use outcomes::check_ranking;

// Rank's rows before 15, for slices of these lengths.
fn check_rank(
    image: &[u8],
    column: u32,
    start: u32,
    goal: u32,
    wanted: u32,
    rows: usize,
    costs: usize,
    work: usize,
) -> Result<Sizes, Refusal>
    ensures { answer size_list result ≡ outcome (rank_rows image.now column start goal wanted rows costs work) (sizes image.now) }
{
    let sizes = check_ranking(image, column, start, goal, wanted, work)?;
    let n = sizes.n as usize;
    let k = wanted as usize;
    if rows < k * n || costs < k {
        return Err(Refusal::SliceTooShort);
    }
    Ok(sizes)
}

// REFERENCE, section 4.5. The first four promises say what is given, which is the number of paths, and written;
// the last one is demand 2.
pub fn rank(
    image: &[u8],
    column: u32,
    start: u32,
    goal: u32,
    wanted: u32,
    rows: &mut [u16],
    costs: &mut [u32],
    work: &mut [u32],
) -> Result<u32, Refusal>
    ensures result_value { answer one_number result ≡ rank_outcome image.now column start goal wanted (length rows.old) (length costs.old) (length work.old) }
    ensures rows_after { rows.new ≡ after (rank_fault image.now column start goal wanted (length rows.old) (length costs.old) (length work.old)) (rank_rows_of image.now column start goal wanted) rows.old }
    ensures costs_after { costs.new ≡ after (rank_fault image.now column start goal wanted (length rows.old) (length costs.old) (length work.old)) (rank_costs_of image.now column start goal wanted) costs.old }
    ensures work_after { work.new ≡ cleared (rank_fault image.now column start goal wanted (length rows.old) (length costs.old) (length work.old)) work.old }
    ensures kept2 { Kept2 image.now column start goal wanted (length rows.old) (length costs.old) (length work.old) }
{
    let sizes = check_rank(
        image,
        column,
        start,
        goal,
        wanted,
        rows.len(),
        costs.len(),
        work.len(),
    )?;
    let trip = Trip {
        network: Network { image, sizes },
        column,
        start,
        goal,
    };
    list(&trip, wanted, rows, costs, work)
}
