// For other crates: the catalogue epoch, which every edit raises.
ghost use Rattle.std.specs.Prelude.{◌≡◌, []};
ghost use Rattle.rules.specs.Refused.{told_outcome, first_fault};
ghost use Rattle.rules.specs.Edits.{spent_faults, raised_of};

use rules::{PolicySnapshot, Refusal};

// 27 where the epoch is at its largest.
#[tactic(auto, unfolding(rules::specs::Edits::spent_faults, rules::specs::Refused::first_fault, rules::specs::Refused::told_outcome))]
pub fn spent_outcome(policy: PolicySnapshot) -> Result<(), Refusal>
    ensures { told_outcome result ≡ first_fault (spent_faults policy) }
{
    if policy.catalog_epoch == u64::MAX {
        return Err(Refusal::EpochSpent);
    }
    Ok(())
}

// The policy with its epoch one higher.
#[tactic(auto, unfolding(rules::specs::Edits::raised_of))]
pub fn raised(policy: PolicySnapshot) -> PolicySnapshot
    requires { spent_faults policy ≡ [] }
    ensures { result ≡ raised_of policy }
{
    PolicySnapshot {
        catalog_epoch: policy.catalog_epoch + 1,
        ..policy
    }
}
