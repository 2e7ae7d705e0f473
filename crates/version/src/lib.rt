// For the library and the programs: which version this is. The file VERSION at the root says the same, and the tests of `bindings/rust` hold the two
// together, with the header and the changelog.
#![tactic(auto)]

ghost use Rattle.std.specs.Prelude.{◌≡◌};
ghost use Rattle.version.specs.Version.{this_version};

const MAJOR: u64 = 0;

const MINOR: u64 = 5;

const PATCH: u64 = 0;

// The three parts as one number: 5000 is 0.5.0, and 1002003 would be 1.2.3.
pub fn version_number() -> u64
    ensures { result ≡ this_version }
{
    1_000_000 * MAJOR + 1_000 * MINOR + PATCH
}
