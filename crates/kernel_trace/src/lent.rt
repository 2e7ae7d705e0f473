// The decision with its counts, for a caller that holds policy and request in their bytes, and has tested their lengths and the bank's.
ghost use Rattle.std.specs.Prelude.{◌≡◌, [], ◌≤◌, length};
ghost use Rattle.rules.specs.Limits.{max_catalog_models, request_bytes};
ghost use Rattle.rules.specs.Records.{records_in, listed_of, input_of, policy_of};
ghost use Rattle.rules.specs.Numbers.{told_trace};
ghost use Rattle.rules.specs.Stored.{policy_size_faults};
ghost use Rattle.rules.specs.Decide.{traced_of};

use crate::trace::traced;
use bank::unchecked::{input_of, policy_of};
use rules::{DecisionTrace, KernelDecision};

// What `prescribe_with_trace` decides over a bank of whole records.
pub fn traced_lent(policy: &[u8], request: &[u8], bank: &[u8]) -> (KernelDecision, DecisionTrace)
    requires { (policy_size_faults policy.now ≡ []) × (request_bytes ≤ length request.now) × (records_in (length bank.now) ≤ max_catalog_models) }
    ensures { told_trace result ≡ traced_of (policy_of policy.now) (input_of request.now) (listed_of bank.now) }
{
    traced(policy_of(policy), bank, input_of(request))
}
