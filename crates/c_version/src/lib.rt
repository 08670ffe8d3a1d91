// The version of the library, as callers in other languages are told it.
#![tactic(auto)]

ghost use Rattle.std.specs.Prelude.{◌≡◌};
ghost use Rattle.c_version.specs.VersionTold.{version_told};

const FIRST: u32 = 0;

const SECOND: u32 = 8;

const THIRD: u32 = 0;

// Which version it is, in one number.
pub fn version() -> u32
    ensures { result ≡ version_told }
{
    10000 * FIRST + 100 * SECOND + THIRD
}
