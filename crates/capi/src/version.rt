// The library's version, which the file VERSION has.
ghost use Rattle.std.specs.Prelude.{◌≡◌};

// Major times 1,000,000, plus minor times 1,000, plus patch.
#[unsafe(no_mangle)]
pub extern "C" fn vihrolom_version() -> u32
    ensures { result ≡ 7000 }
{
    7000
}
