// The reason of the largest count.
ghost use Rattle.std.specs.Prelude.{◌≡◌};
ghost use Rattle.rules.specs.Numbers.{reason_no};
ghost use Rattle.rules.specs.Count.{weight, heavier, dominant_of};
ghost use Rattle.kernel_ranking.specs.Reason.{told_weight};

use rules::{KernelReason, RejectionHistogram};

// A reason with its count.
#[derive(Clone, Copy)]
pub struct Weighed {
    pub count: u16,
    pub reason: KernelReason,
}

// Of two, the later one, unless its count is the smaller.
#[tactic(auto, unfolding(rules::specs::Count::heavier, rules::specs::Choice::below))]
fn heavier_of(sofar: Weighed, count: u16, reason: KernelReason) -> Weighed
    ensures { told_weight result ≡ heavier (told_weight sofar) (weight count (reason_no reason)) }
{
    if count < sofar.count {
        sofar
    } else {
        Weighed { count, reason }
    }
}

// `dominant_rejection_reason`: the last of the largest counts, in document 01's order. That order is no other's: neither the gates' nor
// the counts'. Where all are zero the last one's reason, 102, is the answer.
#[tactic(auto, unfolding(rules::specs::Count::dominant_of))]
pub fn dominant_rejection_reason(counts: RejectionHistogram) -> KernelReason
    ensures { reason_no result ≡ dominant_of counts }
{
    let top = Weighed {
        count: 0,
        reason: KernelReason::NoEnabledModel,
    };
    let top = heavier_of(top, counts.capability, KernelReason::CapabilityConstraint);
    let top = heavier_of(top, counts.region, KernelReason::RegionConstraint);
    let top = heavier_of(top, counts.provider, KernelReason::ProviderConstraint);
    let top = heavier_of(top, counts.quality, KernelReason::QualityConstraint);
    let top = heavier_of(
        top,
        counts.risk_ceiling,
        KernelReason::RiskCeilingConstraint,
    );
    let top = heavier_of(top, counts.latency, KernelReason::LatencyConstraint);
    let top = heavier_of(top, counts.budget, KernelReason::BudgetConstraint);
    let top = heavier_of(top, counts.utility, KernelReason::NonPositiveUtility);
    let top = heavier_of(top, counts.disabled, KernelReason::NoEnabledModel);
    top.reason
}
