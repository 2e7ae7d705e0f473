// Sizes and limits. specs/Limits.antt states the same numbers for the rules.
ghost use Rattle.std.specs.Prelude.{◌≡◌};
ghost use Rattle.rules.specs.Limits.{all_ones, max_bps};

// One basis point is a ten-thousandth.
pub const BASIS_POINTS: u64 = 10_000;
// Every provider is admitted: all 64 bits.
pub const ALL_PROVIDERS: u64 = 0xffff_ffff_ffff_ffff;
// Every region: all 64 bits. The region gate has no branch of its own for it.
pub const ALL_REGIONS: u64 = 0xffff_ffff_ffff_ffff;
// A provider above this has no bit in a mask.
pub const MAX_PROVIDER_ID: u16 = 63;
// The most records that a decision's 16-bit counts and places can tell.
pub const MAX_CATALOG_MODELS: usize = 65_535;
// The highest basis points that checked calls and validation take.
pub const MAX_BPS: u16 = 10_000;
// The highest risk multiplier that validation takes.
pub const MAX_RISK_PENALTY_MULTIPLIER_BPS: u16 = 50_000;
// A price scale of one: today's price.
pub const PPM: u64 = 1_000_000;
// The highest price scale that a margin tries: a thousand times today's price.
pub const MAX_PRICE_SCALE_PPM: u64 = 1_000_000_000;

// A model's bytes in a bank.
pub const RECORD_BYTES: usize = 47;
// A request's bytes, those of a policy's six numbers, those of a policy that also says how it rounds, and of one that says its allowance too.
pub const REQUEST_BYTES: usize = 70;

pub const POLICY_BYTES: usize = 30;

pub const ROUNDED_POLICY_BYTES: usize = 31;

pub const LONGEST_POLICY_BYTES: usize = 35;
// All of them, in arrays.
pub type ModelBytes = [u8; RECORD_BYTES];

pub type RequestBytes = [u8; REQUEST_BYTES];

pub type PolicyNumberBytes = [u8; POLICY_BYTES];

pub type LongestPolicyBytes = [u8; LONGEST_POLICY_BYTES];

// An explanation record's bytes.
pub const EXPLANATION_BYTES: usize = 72;
// The place that a rejection carries.
pub const NO_PLACE: u16 = 65_535;

// A stored field's tag and length, and a model's and a request's bytes in a field.
pub const FIELD_HEADER_BYTES: usize = 3;

pub const STORED_RECORD_BYTES: usize = 47;

pub const STORED_REQUEST_BYTES: usize = 70;
// The most models of a stored form, and of the program.
pub const MAX_STORED_MODELS: usize = 1_394;

pub const MAX_PROGRAM_MODELS: usize = 900;

// The three that callers use and no crate does are held to the rules' numbers here.
fn basis_points() -> u64
    ensures { result ≡ max_bps }
{
    BASIS_POINTS
}

fn all_providers() -> u64
    ensures { result ≡ all_ones }
{
    ALL_PROVIDERS
}

fn all_regions() -> u64
    ensures { result ≡ all_ones }
{
    ALL_REGIONS
}
