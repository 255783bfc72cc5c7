// The calls of the path layer: Label, Shortest, Regret, Rank, Robust, Find and Search.
ghost use Rattle.std.specs.Prelude.{◌≡◌, length};
ghost use Rattle.image.specs.Outcome.{sound, after};
ghost use Rattle.image.specs.Layout.{net_of};
ghost use Rattle.image.specs.Calls.{image_fault};
ghost use Rattle.outcomes.specs.Calls.{cleared, label_fault, label_outcome, labels_of, shortest_fault, shortest_outcome, shortest_of, regret_outcome, rank_fault, rank_outcome, rank_rows_of, rank_costs_of, robust_fault, robust_outcome, robust_of, chosen};
ghost use Rattle.outcomes.specs.Demands.{Kept2, Kept3};
ghost use Rattle.arc_calls.specs.Calls.{FindsArc, find_of, find_outcome};
ghost use Rattle.search_calls.specs.Calls.{search_fault, search_outcome, search_path};
ghost use Rattle.search_calls.specs.Demands.{KeptSearch};
ghost use Rattle.c_replies.specs.Replies.{numbers, reply_of};

use arc_calls::find::find;
use c_replies::Reply;
use column_calls::label::label;
use column_calls::rank::rank;
use column_calls::shortest::shortest;
use network_calls::regret::regret;
use network_calls::robust::robust;
use search_calls::search::search;

// REFERENCE, section 4.2. No values.
#[unsafe(no_mangle)]
pub extern "C" fn vihrolom_label(image: &[u8], column: u32, goal: u32, labels: &mut [u32]) -> Reply
    ensures result_value { numbers result ≡ reply_of (label_outcome image.now column goal (length labels.old)) }
    ensures labels_after { labels.new ≡ after (label_fault image.now column goal (length labels.old)) (labels_of image.now column goal) labels.old }
{
    let answer = label(image, column, goal, labels);
    Reply::from(answer)
}

// REFERENCE, section 4.3. v0: the path's length; v1: its cost.
#[unsafe(no_mangle)]
pub extern "C" fn vihrolom_shortest(
    image: &[u8],
    column: u32,
    start: u32,
    goal: u32,
    path: &mut [u16],
) -> Reply
    ensures result_value { numbers result ≡ reply_of (shortest_outcome image.now column start goal (length path.old)) }
    ensures path_after { path.new ≡ after (shortest_fault image.now column start goal (length path.old)) (shortest_of image.now column start goal) path.old }
{
    let answer = shortest(image, column, start, goal, path);
    Reply::from(answer)
}

// REFERENCE, section 4.4. v0: the figure; v1: the worst column.
#[unsafe(no_mangle)]
pub extern "C" fn vihrolom_regret(image: &[u8], start: u32, goal: u32, nodes: &[u16]) -> Reply
    ensures { numbers result ≡ reply_of (regret_outcome image.now start goal nodes.now) }
{
    let answer = regret(image, start, goal, nodes);
    Reply::from(answer)
}

// REFERENCE, section 4.5. v0: the number of paths.
#[unsafe(no_mangle)]
pub extern "C" fn vihrolom_rank(
    image: &[u8],
    column: u32,
    start: u32,
    goal: u32,
    wanted: u32,
    rows: &mut [u16],
    costs: &mut [u32],
    work: &mut [u32],
) -> Reply
    ensures result_value { numbers result ≡ reply_of (rank_outcome image.now column start goal wanted (length rows.old) (length costs.old) (length work.old)) }
    ensures rows_after { rows.new ≡ after (rank_fault image.now column start goal wanted (length rows.old) (length costs.old) (length work.old)) (rank_rows_of image.now column start goal wanted) rows.old }
    ensures costs_after { costs.new ≡ after (rank_fault image.now column start goal wanted (length rows.old) (length costs.old) (length work.old)) (rank_costs_of image.now column start goal wanted) costs.old }
    ensures work_after { work.new ≡ cleared (rank_fault image.now column start goal wanted (length rows.old) (length costs.old) (length work.old)) work.old }
    ensures kept2 { Kept2 image.now column start goal wanted (length rows.old) (length costs.old) (length work.old) }
{
    let answer = rank(image, column, start, goal, wanted, rows, costs, work);
    Reply::from(answer)
}

// REFERENCE, section 4.6. v0: the path's length; v1: its figure; v2: its worst column; v3: the count;
// v4: the state, 1 settled or 2 open; v5: the floor, 0 if settled.
#[unsafe(no_mangle)]
pub extern "C" fn vihrolom_robust(
    image: &[u8],
    column: u32,
    start: u32,
    goal: u32,
    wanted: u32,
    path: &mut [u16],
    work: &mut [u32],
) -> Reply
    ensures result_value { numbers result ≡ reply_of (robust_outcome image.now column start goal wanted (length path.old) (length work.old)) }
    ensures path_after { path.new ≡ after (robust_fault image.now column start goal wanted (length path.old) (length work.old)) (chosen (robust_of image.now column start goal wanted)) path.old }
    ensures work_after { work.new ≡ cleared (robust_fault image.now column start goal wanted (length path.old) (length work.old)) work.old }
    ensures kept3 { Kept3 image.now column start goal wanted (length path.old) (length work.old) }
{
    let answer = robust(image, column, start, goal, wanted, path, work);
    Reply::from(answer)
}

// REFERENCE, section 4.9. v0: 1 if the arc is found, 0 if not; v1: its index, 0 if not; v2: the number of
// records looked at.
#[unsafe(no_mangle)]
pub extern "C" fn vihrolom_find(image: &[u8], tail: u32, head: u32) -> Reply
    ensures result_value { numbers result ≡ reply_of (find_outcome image.now tail head) }
    ensures finds_arc { image_fault image.now ≡ sound → FindsArc (net_of image.now).arcs (tail, head) (find_of image.now tail head) }
{
    let answer = find(image, tail, head);
    Reply::from(answer)
}

// REFERENCE, section 4.11. v0: the path's length; v1: its figure; v2: its worst column; v3: the arcs tried.
#[unsafe(no_mangle)]
pub extern "C" fn vihrolom_search(
    image: &[u8],
    start: u32,
    goal: u32,
    limit: u32,
    path: &mut [u16],
) -> Reply
    ensures result_value { numbers result ≡ reply_of (search_outcome image.now start goal limit (length path.old)) }
    ensures path_after { path.new ≡ after (search_fault image.now start goal limit (length path.old)) (search_path image.now start goal) path.old }
    ensures kept_search { KeptSearch image.now start goal limit (length path.old) }
{
    let answer = search(image, start, goal, limit, path);
    Reply::from(answer)
}
