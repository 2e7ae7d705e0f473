// For other crates: what a policy and its catalogue must keep to before they serve: 10, 11, the records, 15. Users have the call from `catalogue`,
// which passes it on.
#![tactic(auto)]

ghost use Rattle.std.specs.Prelude.{◌≡◌};
ghost use Rattle.rules.specs.Records.{listed_of};
ghost use Rattle.rules.specs.Refused.{told_outcome, first_fault};
ghost use Rattle.rules.specs.Validate.{policy_faults, off_faults, catalog_faults, validate_of};

use bank::unchecked::model_at;
use call_checks::refuse::bank_outcome;
use catalogue_records::records_outcome;
use rules::limits::{MAX_BPS, MAX_RISK_PENALTY_MULTIPLIER_BPS, RECORD_BYTES};
use rules::{PolicySnapshot, Refusal};

// 10 for the first limit of the policy that is too high.
#[tactic(auto, unfolding(rules::specs::Validate::policy_faults, rules::specs::Refused::first_fault, rules::specs::Refused::told_outcome))]
fn policy_outcome(policy: PolicySnapshot) -> Result<(), Refusal>
    ensures { told_outcome result ≡ first_fault (policy_faults policy) }
{
    if MAX_BPS < policy.hard_risk_limit_bps {
        return Err(Refusal::PolicyOutOfRange {
            field: 4,
            value: policy.hard_risk_limit_bps,
        });
    }
    if MAX_BPS < policy.minimum_confidence_bps {
        return Err(Refusal::PolicyOutOfRange {
            field: 5,
            value: policy.minimum_confidence_bps,
        });
    }
    if MAX_RISK_PENALTY_MULTIPLIER_BPS < policy.risk_penalty_multiplier_bps {
        return Err(Refusal::PolicyOutOfRange {
            field: 6,
            value: policy.risk_penalty_multiplier_bps,
        });
    }
    Ok(())
}

// 15 where no record is switched on.
fn off_outcome(bank: &[u8]) -> Result<(), Refusal>
    ensures { told_outcome result ≡ first_fault (off_faults (listed_of bank.now)) }
{
    for place in 0..bank.len() / RECORD_BYTES {
        if model_at(bank, place).enabled != 0 {
            return Ok(());
        }
    }
    Err(Refusal::NoEnabledModels)
}

// A policy with the records of a bank, in that order.
pub fn catalog_outcome(policy: PolicySnapshot, bank: &[u8]) -> Result<(), Refusal>
    ensures { told_outcome result ≡ first_fault (catalog_faults policy (listed_of bank.now)) }
{
    policy_outcome(policy)?;
    if bank.len() / RECORD_BYTES == 0 {
        return Err(Refusal::EmptyCatalog);
    }
    records_outcome(bank)?;
    off_outcome(bank)
}

// `validate`: whether a policy with its bank may serve. Refused: 1, 2, 10, 11, then record by record 12, 13, 14, then 15.
pub fn validate(policy: PolicySnapshot, bank: &[u8]) -> Result<(), Refusal>
    ensures { told_outcome result ≡ validate_of policy bank.now }
{
    bank_outcome(bank.len())?;
    catalog_outcome(policy, bank)
}
