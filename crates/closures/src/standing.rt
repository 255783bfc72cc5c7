// What decides whether an answer stands when an arc is closed.
ghost use Rattle.std.specs.Prelude.{◌≡◌};
ghost use Rattle.closures.specs.Standing as standing;

// Whether a route goes by the arc from tail to head.
pub fn touches(tail: u16, head: u16, route: &[u16]) -> bool
    ensures { result ≡ standing.touches (tail, head) route.now }
{
    route
        .windows(2)
        .any(|step| matches!(step, &[v, y] if v == tail && y == head))
}
