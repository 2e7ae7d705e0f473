// For other crates: the request's limits, which stop it before any record is looked at.
#![tactic(auto)]

ghost use Rattle.std.specs.Prelude.{◌≡◌};
ghost use Rattle.rules.specs.Decide.{stopped_by};
ghost use Rattle.kernel_stop.specs.Stop.{told_stop};

use rules::{KernelInput, KernelReason, PolicySnapshot};

// The risk at or above the hard limit, else the confidence below the minimum.
#[tactic(auto, unfolding(crate::specs::Stop::told_stop, rules::specs::Decide::stopped_by, rules::specs::Choice::at_least, rules::specs::Choice::below))]
pub fn stopped_by(policy: PolicySnapshot, input: KernelInput) -> Option<KernelReason>
    ensures { told_stop result ≡ stopped_by policy input }
{
    if policy.hard_risk_limit_bps <= input.risk_bps {
        Some(KernelReason::RiskHardLimit)
    } else if input.confidence_bps < policy.minimum_confidence_bps {
        Some(KernelReason::ConfidenceHardLimit)
    } else {
        None
    }
}
