// The decision over a bank that has another record at a place, which a boundary's price asks for.
ghost use Rattle.std.specs.Prelude.{◌≡◌, length, set};
ghost use Rattle.rules.specs.Records.{listed, listed_of, model_of};
ghost use Rattle.rules.specs.Numbers.{told_decision};
ghost use Rattle.rules.specs.Decide.{decision_of};
ghost use Rattle.kernel_scan.specs.Scan.{StandsIn};

use crate::decide::{decision_of_scan, rejection_for};
use kernel_scan::{pricing_for, scan_with};
use kernel_stop::stopped_by;
use rules::limits::RECORD_BYTES;
use rules::{KernelDecision, KernelInput, PolicySnapshot};

// The decision over a bank in which 47 bytes stand in for the record at a place.
pub fn decide_with(
    policy: PolicySnapshot,
    bank: &[u8],
    input: KernelInput,
    place: usize,
    stand: &[u8],
) -> KernelDecision
    requires { StandsIn (length bank.now) place (length stand.now) }
    ensures { told_decision result ≡ decision_of policy input (set (listed_of bank.now) place (listed place (model_of stand.now))) }
{
    if let Some(reason) = stopped_by(policy, input) {
        return rejection_for(policy, input, reason, 0);
    }
    let evaluated = (bank.len() / RECORD_BYTES) as u16;
    let pricing = pricing_for(policy, input);
    let state = scan_with(bank, place, stand, pricing, input);
    decision_of_scan(policy, input, state, evaluated)
}
