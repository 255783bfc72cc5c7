// A call's answer as eight numbers.
ghost use Rattle.std.specs.Prelude.{◌≡◌};
ghost use Rattle.image.specs.Answers.{answer};
ghost use Rattle.c_replies.specs.Replies.{numbers, reply_of};

use crate::values::Values;
use image::Refusal;

// refusal is 0 for a result, and v0 to v5 are then its values; it is else the number of the refusal, and
// place is its place. What is not used is 0. C has no enum with values: the number stands beside them.
#[repr(C)]
#[derive(Clone, Copy)]
pub struct Reply {
    pub refusal: u32,
    pub place: u32,
    pub v0: u32,
    pub v1: u32,
    pub v2: u32,
    pub v3: u32,
    pub v4: u32,
    pub v5: u32,
}

impl<T: Values> From<Result<T, Refusal>> for Reply {
    ghost from_gives = { λ given reply. numbers reply ≡ reply_of (answer T.values given) };

    fn from(given: Result<T, Refusal>) -> Reply {
        match given {
            Ok(result) => {
                let [v0, v1, v2, v3, v4, v5] = result.in_reply();
                Reply {
                    refusal: 0,
                    place: 0,
                    v0,
                    v1,
                    v2,
                    v3,
                    v4,
                    v5,
                }
            }
            Err(refusal) => Reply {
                refusal: refusal.number(),
                place: refusal.place(),
                v0: 0,
                v1: 0,
                v2: 0,
                v3: 0,
                v4: 0,
                v5: 0,
            },
        }
    }
}
