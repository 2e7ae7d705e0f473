// The decision with its counts, for a caller that holds policy and request as structs.
ghost use Rattle.std.specs.Prelude.{◌≡◌, ◌≤◌, length};
ghost use Rattle.rules.specs.Limits.{max_catalog_models};
ghost use Rattle.rules.specs.Records.{records_in, listed_of};
ghost use Rattle.rules.specs.Numbers.{told_decision, told_trace};
ghost use Rattle.rules.specs.Decide.{trace_of, traced_of};

use kernel_decide::decide::{decision_of_scan, rejection_for};
use kernel_ranking::state::{no_counts, start};
use kernel_scan::{pricing_for, scan_on};
use kernel_stop::stopped_by;
use rules::limits::RECORD_BYTES;
use rules::{DecisionTrace, KernelDecision, KernelInput, PolicySnapshot, RejectionHistogram};

// A decision's trace.
#[tactic(auto, unfolding(rules::specs::Decide::trace_of))]
pub fn trace_of(decision: KernelDecision, counts: RejectionHistogram) -> DecisionTrace
    ensures { result ≡ trace_of (told_decision decision) counts }
{
    DecisionTrace {
        rejections: counts,
        evaluated_models: decision.evaluated_models,
        eligible_models: decision.eligible_models,
    }
}

// The decision with its counts. Where the request is stopped they are zero. It is compiled into its callers, so that a policy and a request that were
// read from bytes need not be stored once more before the scan.
#[inline(always)]
pub fn traced(
    policy: PolicySnapshot,
    bank: &[u8],
    input: KernelInput,
) -> (KernelDecision, DecisionTrace)
    requires { records_in (length bank.now) ≤ max_catalog_models }
    ensures { told_trace result ≡ traced_of policy input (listed_of bank.now) }
{
    if let Some(reason) = stopped_by(policy, input) {
        let decision = rejection_for(policy, input, reason, 0);
        return (decision, trace_of(decision, no_counts()));
    }
    let evaluated = (bank.len() / RECORD_BYTES) as u16;
    let pricing = pricing_for(policy, input);
    let state = scan_on(bank, 0, pricing, input, start());
    let decision = decision_of_scan(policy, input, state, evaluated);
    (decision, trace_of(decision, state.counts))
}
