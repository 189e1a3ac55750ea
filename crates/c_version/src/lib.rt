// The version of the library: VERSION, include/sgf.h, the Rust crate and the programs say the same one (.ci/version).
#![tactic(auto)]

ghost use Rattle.std.specs.Prelude.{◌≡◌};
ghost use Rattle.c_version.specs.Version.{version};

const MAJOR: u32 = 0;

const MINOR: u32 = 11;

const PATCH: u32 = 0;

// The version as one number.
pub fn number() -> u32
    ensures { result ≡ version }
{
    MAJOR * 65536 + MINOR * 256 + PATCH
}
