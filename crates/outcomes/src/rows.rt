// Rows of the refusal table that calls share. A call's rows come to the image's sizes, or to the
// first refusal that applies.
ghost use Rattle.std.specs.Prelude.{◌≡◌, ◌&&◌, ◌*◌, ◌≤◌, not, leb, eqb};
ghost use Rattle.image.specs.Outcome.{◌then◌, outcome};
ghost use Rattle.image.specs.Rows.{is_node};
ghost use Rattle.image.specs.Layout.{net_of};
ghost use Rattle.image.specs.Calls.{image_fault, sizes};
ghost use Rattle.image.specs.Answers.{answer, size_list};
ghost use Rattle.outcomes.specs.Calls.{ends_row, search_rows, ranking_rows, workspace};

use image::check::check;
use image::{Refusal, Sizes, is_node};

// Whether a number is one of 1 to `last`: row 11 for a column, row 12 for a number of wanted paths.
pub fn is_one_of(last: u32, number: u32) -> bool
    ensures { result ≡ (leb 1 number && leb number last) }
{
    (1..=last).contains(&number)
}

// Whether start and goal are two nodes of 1 to n: row 10.
fn are_ends(n: u32, start: u32, goal: u32) -> bool
    ensures { result ≡ (is_node n start && is_node n goal && not (eqb start goal)) }
{
    is_node(n, start) && is_node(n, goal) && start != goal
}

// The image's rows, and row 10 for a start and a goal.
pub fn check_ends(image: &[u8], start: u32, goal: u32) -> Result<Sizes, Refusal>
    ensures { answer size_list result ≡ outcome (image_fault image.now then ends_row (net_of image.now) start goal) (sizes image.now) }
{
    // `let .. else` and no `?`: the specification asks for this form (docs/THEOREMS.md)
    let answer = check(image);
    let Ok(sizes) = answer else {
        return answer;
    };
    if !are_ends(sizes.n, start, goal) {
        return Err(Refusal::WrongEnds);
    }
    Ok(sizes)
}

// The same, and row 11 for a column.
pub fn check_search(image: &[u8], column: u32, start: u32, goal: u32) -> Result<Sizes, Refusal>
    ensures { answer size_list result ≡ outcome (search_rows image.now column start goal) (sizes image.now) }
{
    let sizes = check_ends(image, start, goal)?;
    if !is_one_of(sizes.k, column) {
        return Err(Refusal::WrongColumn);
    }
    Ok(sizes)
}

// How many numbers a workspace must have for `wanted` paths in a network of n nodes.
#[tactic(auto, unfolding(crate::specs::Calls::workspace))]
pub fn workspace(n: usize, wanted: usize) -> usize
    requires { (n ≤ 200) × (wanted ≤ 256) }
    ensures { result ≡ workspace n wanted }
{
    (wanted + 1) * (n + 16) + 16 * n + 64
}

// The rows before 12, and rows 12 and 13 for a number of wanted paths and a workspace of `work` numbers. The
// four numbers stay apart: they are as the C call hands them down, and nothing is known of them before this.
pub fn check_ranking(
    image: &[u8],
    column: u32,
    start: u32,
    goal: u32,
    wanted: u32,
    work: usize,
) -> Result<Sizes, Refusal>
    ensures { answer size_list result ≡ outcome (ranking_rows image.now column start goal wanted work) (sizes image.now) }
{
    let sizes = check_search(image, column, start, goal)?;
    if !is_one_of(256, wanted) {
        return Err(Refusal::WrongPathCount);
    }
    if work < workspace(sizes.n as usize, wanted as usize) {
        return Err(Refusal::SliceTooShort);
    }
    Ok(sizes)
}
