// A star put together from its parts.
ghost use Rattle.std.specs.Prelude.{◌≡◌, ◌++◌, ◌+◌, ◌≤◌, length, take};

// Writes a part at the place `at` of a star, behind what stands there, and returns the place behind it.
fn append(part: &[u16], star: &mut [u16], at: usize) -> usize
    requires { at + length part.now ≤ length star.old }
    ensures value { result ≡ at + length part.now }
    ensures star_after { take (at + length part.now) star.new ≡ take at star.old ++ part.now }
{
    let end = at + part.len();
    star[at..end].copy_from_slice(part);
    end
}

// Fills a star with its five parts, one behind the other.
pub fn assemble(
    tails: &[u16],
    heads: &[u16],
    next_in: &[u16],
    first_out: &[u16],
    first_in: &[u16],
    star: &mut [u16],
)
    requires { length star.old ≡ length tails.now + length heads.now + length next_in.now + length first_out.now + length first_in.now }
    ensures { star.new ≡ tails.now ++ heads.now ++ next_in.now ++ first_out.now ++ first_in.now }
{
    let heads_at = append(tails, star, 0);
    let nexts_at = append(heads, star, heads_at);
    let outs_at = append(next_in, star, nexts_at);
    let ins_at = append(first_out, star, outs_at);
    append(first_in, star, ins_at);
}
