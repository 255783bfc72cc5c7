// Where the parts of an image with m arcs and k columns lie. That m and k are small is asked of each function: Check has
// them from an image that is not accepted yet, Build from its caller, and a struct of the two would be taken apart by
// each, as the definitions speak of m and k. Of an accepted image it is in a type, `loading::Network`.
ghost use Rattle.std.specs.Prelude.{◌≡◌, ◌*◌, ◌≤◌};
ghost use Rattle.image.specs.Layout.{costs_start, total};

// The number of costs.
pub fn cost_count(m: u32, k: u32) -> u32
    requires { (m ≤ 1000) × (k ≤ 8) }
    ensures { (result ≡ m * k) × (result ≤ 8000) }
{
    m * k
}

// The offset of the costs.
pub fn costs_start(m: u32) -> u32
    requires { m ≤ 1000 }
    ensures { result ≡ costs_start m }
{
    24 + 4 * m
}

// The image's length in bytes.
pub fn image_length(m: u32, k: u32) -> u32
    requires { (m ≤ 1000) × (k ≤ 8) }
    ensures { result ≡ total m k }
{
    costs_start(m) + 4 * cost_count(m, k)
}
