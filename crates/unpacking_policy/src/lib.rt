// For other crates: the policy that 30 bytes say, which rounds apart and has no allowance, or 31, of which the last says how it rounds, or 35, of which
// the last four say its allowance; and which bytes say none. The numbers are packed as in `unpacking`. What reads them asks its caller for so many
// bytes; what refuses asks nothing, and `bank` passes `policy_from` on to users.
#![tactic(auto)]

ghost use Rattle.std.specs.Prelude.{◌≡◌, ◌||◌, [], ◌≤◌, eqb, length};
ghost use Rattle.rules.specs.Limits.{policy_bytes, rounded_policy_bytes, longest_policy_bytes};
ghost use Rattle.rules.specs.Bytes.{number_at};
ghost use Rattle.rules.specs.Records.{rounding_of, policy_with, policy_of};
ghost use Rattle.rules.specs.Refused.{first_fault, told_outcome};
ghost use Rattle.rules.specs.Numbers.{told_policy};
ghost use Rattle.rules.specs.Stored.{policy_size_faults, policy_byte_faults, read_policy_of};

use endian::{u16_at, u32_at, u64_at};
use rules::limits::{LONGEST_POLICY_BYTES, POLICY_BYTES, ROUNDED_POLICY_BYTES};
use rules::{PolicySnapshot, Refusal, Rounding};

// The 31st byte of a policy that rounds once. 0 is one that rounds apart, and any above is refused.
const ONCE: u8 = 1;

// The byte after a policy's numbers; 0 where there is none.
fn rounding_byte(s: &[u8]) -> u8
    ensures { result ≡ number_at s.now policy_bytes 1 }
{
    if POLICY_BYTES < s.len() {
        return s[POLICY_BYTES];
    }
    0
}

// How a policy's bytes say that it rounds.
fn rounding_of(s: &[u8]) -> Rounding
    ensures { result ≡ rounding_of (number_at s.now policy_bytes 1) }
{
    if rounding_byte(s) == ONCE {
        return Rounding::Once;
    }
    Rounding::Apart
}

// The allowance that a policy's bytes say; 0 where none does.
fn allowance_of(s: &[u8]) -> u32
    requires { policy_size_faults s.now ≡ [] }
    ensures { result ≡ number_at s.now rounded_policy_bytes 4 }
{
    if s.len() < LONGEST_POLICY_BYTES {
        return 0;
    }
    u32_at(s, ROUNDED_POLICY_BYTES)
}

// The policy whose numbers some bytes say, that rounds so and has this allowance.
pub fn policy_with(rounding: Rounding, allowance: u32, s: &[u8]) -> PolicySnapshot
    requires { policy_bytes ≤ length s.now }
    ensures { result ≡ policy_with rounding allowance s.now }
{
    PolicySnapshot {
        policy_epoch: u64_at(s, 0),
        catalog_epoch: u64_at(s, 8),
        hard_risk_limit_bps: u16_at(s, 16),
        minimum_confidence_bps: u16_at(s, 18),
        risk_penalty_multiplier_bps: u16_at(s, 20),
        latency_penalty_microunits_per_ms: u64_at(s, 22),
        rounding: rounding,
        latency_allowance_ms: allowance,
    }
}

// The policy that a policy's bytes say.
pub fn policy_of(s: &[u8]) -> PolicySnapshot
    requires { policy_size_faults s.now ≡ [] }
    ensures { result ≡ policy_of s.now }
{
    policy_with(rounding_of(s), allowance_of(s), s)
}

// Whether a policy that says more than its numbers may have so many bytes.
fn is_longer_policy(n: usize) -> bool
    ensures { result ≡ (eqb n rounded_policy_bytes || eqb n longest_policy_bytes) }
{
    n == ROUNDED_POLICY_BYTES || n == LONGEST_POLICY_BYTES
}

// Whether some bytes are a policy's, and if not, why: 22, then 23.
pub fn policy_lent_outcome(bytes: &[u8]) -> Result<(), Refusal>
    ensures { told_outcome result ≡ first_fault (policy_byte_faults bytes.now) }
{
    let n = bytes.len();
    // Of its numbers alone nothing else is asked.
    if n == POLICY_BYTES {
        return Ok(());
    }
    if !is_longer_policy(n) {
        return Err(Refusal::WrongLength);
    }
    if ONCE < rounding_byte(bytes) {
        return Err(Refusal::UnknownRounding);
    }
    Ok(())
}

// The policy that some bytes say. Refused: 22, then 23.
pub fn policy_from(bytes: &[u8]) -> Result<PolicySnapshot, Refusal>
    ensures { told_policy result ≡ read_policy_of bytes.now }
{
    policy_lent_outcome(bytes)?;
    Ok(policy_of(bytes))
}
