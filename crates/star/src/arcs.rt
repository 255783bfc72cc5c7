// The arc between two nodes.
ghost use Rattle.std.specs.Prelude.{◌≡◌, ◌+◌, ◌≤◌, ◌<◌, length, get_or};
ghost use Rattle.star.specs.Search.{seek, Finds};
ghost use Rattle.star.specs.Found.{sought, ArcFound};

use std::ops::Range;

// What a search for an arc finds: the arc's index, if there is one; and at how many records it looked.
#[derive(Clone, Copy, Debug, PartialEq, Eq)]
pub struct Sought {
    pub arc: Option<u16>,
    pub looks: u32,
}

// The arc among the records in a range, which rise by tail, then head. Of the records that are left, from
// `first` on, the middle one is looked at, and then those before it or those behind it are left: as many as
// half of the others, rounded down or up. By hand, since it counts its looks, which `binary_search` does not
// tell, and since tails and heads are two slices.
pub fn find_arc(tails: &[u16], heads: &[u16], range: Range<usize>, arc: (usize, usize)) -> Sought
    requires { (range.end ≤ length tails.now) × (range.end ≤ length heads.now) × (range.end < 65536) }
    ensures by_halving { sought result ≡ seek tails.now heads.now arc range.start range.end }
    ensures finds { Finds tails.now heads.now arc range.start range.end (sought result) }
{
    let mut first = range.start;
    let mut left = range.end.saturating_sub(range.start);
    let mut looks = 0;
    while 0 < left {
        let before = (left - 1) / 2;
        let middle = first + before;
        looks += 1;
        let record = (tails[middle] as usize, heads[middle] as usize);
        // two tests: one `cmp` costs a third more in instructions
        if record == arc {
            return Sought {
                arc: Some(middle as u16),
                looks,
            };
        }
        if record < arc {
            first = middle + 1;
            left /= 2;
        } else {
            left = before;
        }
    }
    Sought { arc: None, looks }
}

// The arc from v to y, looked for among the arcs out of v. These have the tail v all, and are told apart by
// their heads: no tail is read, and the head stands for it.
pub fn arc_between(heads: &[u16], first_out: &[u16], v: usize, y: u16) -> Option<u16>
    requires { (v + 1 < length first_out.now) × (get_or first_out.now (v + 1) 0 ≤ length heads.now) }
    ensures { ArcFound heads.now first_out.now v y result }
{
    let range = first_out[v] as usize..first_out[v + 1] as usize;
    let head = y as usize;
    find_arc(heads, heads, range, (head, head)).arc
}
