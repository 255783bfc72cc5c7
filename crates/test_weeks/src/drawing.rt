// Questions and events for a network, from the numbers behind the 520 that the network is drawn from.
ghost use Rattle.std.specs.Prelude.{◌≤◌};

use super::held::Asked;
use test_calls::rank_calls::{Request, longer};
use test_calls::robust_calls::needed_route_rooms;
use test_fixtures::networks::number_at;
use test_fixtures::plain_image::{Header, Network};

// The index of the first number that a list of events is drawn from.
pub const EVENTS: usize = 526;

// One of so many numbers from 0 on.
pub fn below(number: u32, numbers: u32) -> u32
    ensures { result ≤ 65535 }
{
    if numbers < 1 {
        return 0;
    }
    number % numbers % 65536
}

// K: 256 in one of 32 cases, 1 or 2 in half of them, and else 1 to 12.
fn drawn_wanted(number: u32) -> u32 {
    match number % 32 {
        0 => 256,
        1..=16 => 1 + number / 32 % 2,
        _ => 1 + number / 32 % 12,
    }
}

// A network with its image, and the numbers that it and what is asked of it are drawn from.
#[derive(Clone, Copy)]
pub struct Drawn<'a> {
    pub network: Network<'a>,
    pub image: &'a [u8],
    pub numbers: &'a [u32],
}

impl Drawn<'_> {
    // A column, a start, another node as goal, and K.
    pub fn request(self) -> Request {
        let numbers = self.numbers;
        let Header { n, k, .. } = self.network.header;
        let start = below(number_at(numbers, 520), n);
        let step = below(number_at(numbers, 521), n.saturating_sub(1));
        let goal = below(start + 1 + step, n);
        Request {
            column: 1 + below(number_at(numbers, 522), k),
            start: 1 + start,
            goal: 1 + goal,
            wanted: drawn_wanted(number_at(numbers, 523) / 64),
        }
    }

    // A workspace that is exactly long enough, or a longer one.
    pub fn room_for(self, request: Request, is_longer: bool) -> usize {
        let needed = needed_route_rooms(self.network.header.n, request.wanted);
        if is_longer {
            return longer(needed).work;
        }
        needed.work
    }

    // An event from a number: in 5 of 8 cases it closes an arc, and in 1 of 8 it is refused.
    pub fn event(self, request: Request, number: u32) -> Asked {
        let m = self.network.arc_count();
        let high = number / 65536;
        let asked = Asked {
            request,
            arc: below(high, m),
            close: number / 16 % 8 < 5,
            room: self.room_for(request, number / 128 % 2 == 1),
        };
        if number / 256 % 8 == 0 {
            return wrong_event(self.network.header, m, asked, high % 12);
        }
        asked
    }
}

// The request made wrong, in the ways 0 to 5, and else as it is. A way is the drawn number: an enum of twelve would be made
// of it by a `match` before the three that ask it here, each of which has some of the ways together.
fn wrong_request(header: Header, request: Request, way: u32) -> Request {
    let mut wrong = request;
    match way {
        0 => wrong.column = 0,
        1 => wrong.column = header.k.wrapping_add(1),
        2 => wrong.goal = request.start,
        3 => wrong.goal = header.n.wrapping_add(1),
        4 => wrong.wanted = 0,
        5 => wrong.wanted = 257,
        _ => wrong.wanted = request.wanted,
    }
    wrong
}

// The workspace made too short, in the ways 6 and 7.
fn wrong_room(room: usize, way: u32) -> usize {
    match way {
        6 => room.saturating_sub(1),
        7 => 0,
        _ => room,
    }
}

// The arc made none of the m, in even ways, and in the ways 9 and 11, in which all else is right.
fn wrong_arc(m: u32, arc: u32, way: u32) -> u32 {
    match way {
        0 | 2 | 4 | 6 | 8 | 10 => m,
        9 | 11 => 4294967295,
        _ => arc,
    }
}

// An event made one that is refused, in one of twelve ways.
fn wrong_event(header: Header, m: u32, asked: Asked, way: u32) -> Asked {
    Asked {
        request: wrong_request(header, asked.request, way),
        arc: wrong_arc(m, asked.arc, way),
        close: asked.close,
        room: wrong_room(asked.room, way),
    }
}
