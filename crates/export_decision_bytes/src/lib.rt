// For the library: a decision in bytes, alone or with its counts. Nothing here asks anything of its caller.
#![tactic(auto)]

ghost use Rattle.std.specs.Prelude.{◌≡◌};
ghost use Rattle.rules.specs.Numbers.{told_decision};
ghost use Rattle.export_decision_bytes.specs.Layout.{uncounted_bytes, decision_bytes};

use endian_signs::signed_bits;
use endian_writing::{put16, put32, put64};
use rules::{DecisionTrace, KernelDecision};
use splice::put_bytes;

// A decision's bytes alone, and with its counts.
pub const UNCOUNTED_BYTES: usize = 65;

pub const DECISION_BYTES: usize = 83;

pub type UncountedBytes = [u8; UNCOUNTED_BYTES];

pub type DecisionBytes = [u8; DECISION_BYTES];

// The decision alone.
pub fn uncounted_bytes(decision: KernelDecision) -> UncountedBytes
    ensures { result ≡ uncounted_bytes (told_decision decision) }
{
    let mut a = [0u8; UNCOUNTED_BYTES];
    put64(&mut a, 0, decision.request_sequence);
    a[8] = decision.action.number();
    put16(&mut a, 9, decision.reason.number());
    put32(&mut a, 11, decision.selected_model_id);
    put16(&mut a, 15, decision.selected_model_index);
    put64(&mut a, 17, decision.estimated_cost_microunits);
    put64(
        &mut a,
        25,
        signed_bits(decision.expected_utility_microunits),
    );
    put32(&mut a, 33, decision.counterfactual_model_id);
    put64(
        &mut a,
        37,
        signed_bits(decision.counterfactual_utility_microunits),
    );
    put16(&mut a, 45, decision.evaluated_models);
    put16(&mut a, 47, decision.eligible_models);
    put64(&mut a, 49, decision.policy_epoch);
    put64(&mut a, 57, decision.catalog_epoch);
    a
}

// A decision with its counts.
pub fn decision_bytes(decision: KernelDecision, trace: DecisionTrace) -> DecisionBytes
    ensures { result ≡ decision_bytes (record { decision = told_decision decision; trace = trace }) }
{
    let counts = trace.rejections;
    let mut a = [0u8; DECISION_BYTES];
    put_bytes(&mut a, 0, &uncounted_bytes(decision));
    put16(&mut a, 65, counts.disabled);
    put16(&mut a, 67, counts.quality);
    put16(&mut a, 69, counts.risk_ceiling);
    put16(&mut a, 71, counts.latency);
    put16(&mut a, 73, counts.capability);
    put16(&mut a, 75, counts.provider);
    put16(&mut a, 77, counts.region);
    put16(&mut a, 79, counts.budget);
    put16(&mut a, 81, counts.utility);
    a
}
