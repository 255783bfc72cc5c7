// Find held to the answer that it should give.
use super::answers::{Answer, answer_of};
use arc_calls::find::find;

// Whether Find gives the answer.
pub fn find_agrees(image: &[u8], tail: u32, head: u32, expected: Answer) -> bool {
    answer_of(find(image, tail, head)) == expected
}
