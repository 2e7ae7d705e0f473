// The decision over so many of a bank's records. A free slot is a switched-off model to the scan, which goes over all slots: so the free ones are
// taken off that count again, and the rest is as the live ones alone would have it.
ghost use Rattle.std.specs.Prelude.{◌≡◌, ◌≤◌};
ghost use Rattle.rules.specs.Records.{listed_of};
ghost use Rattle.rules.specs.Numbers.{told_decision};
ghost use Rattle.rules.specs.Decide.{decision_of, counts_in};
ghost use Rattle.live_slots.specs.Among.{among_of, Among};
ghost use Rattle.kernel_among.specs.Top.{top_in};
ghost use Rattle.kernel_among.specs.Less.{less_off};

use kernel_decide::decide::{decision_of_scan, rejection_for};
use kernel_ranking::state::{State, Top, start};
use kernel_scan::{pricing_for, scan_on};
use kernel_stop::stopped_by;
use rules::limits::RECORD_BYTES;
use rules::{KernelDecision, KernelInput, PolicySnapshot, RejectionHistogram};

#[derive(Clone, Copy)]
pub struct Decided {
    pub decision: KernelDecision,
    pub counts: RejectionHistogram,
    pub top: Top,
}

// A state with so many fewer switched off.
#[tactic(auto, unfolding(crate::specs::Less::less_off))]
fn less_off(mut state: State, free: u16) -> State
    requires { free ≤ state.counts.disabled }
    ensures { result ≡ less_off state free }
{
    state.counts.disabled -= free;
    state
}

// The decision over so many records, as `decide` makes it over all, with its counts and its best two. A stopped request has none.
pub fn decide_among(policy: PolicySnapshot, bank: &[u8], input: KernelInput, many: u16) -> Decided
    requires { Among many bank.now }
    ensures decision { told_decision result.decision ≡ decision_of policy input (among_of many bank.now) }
    ensures counts { result.counts ≡ counts_in policy input (among_of many bank.now) }
    ensures top { result.top ≡ top_in policy input (listed_of bank.now) }
{
    if let Some(reason) = stopped_by(policy, input) {
        let nothing = start();
        return Decided {
            decision: rejection_for(policy, input, reason, 0),
            counts: nothing.counts,
            top: nothing.top,
        };
    }
    let slots = (bank.len() / RECORD_BYTES) as u16;
    let pricing = pricing_for(policy, input);
    let all = scan_on(bank, 0, pricing, input, start());
    let state = less_off(all, slots - many);
    Decided {
        decision: decision_of_scan(policy, input, state, many),
        counts: state.counts,
        top: state.top,
    }
}

// The decision alone.
pub fn decision_among(
    policy: PolicySnapshot,
    bank: &[u8],
    input: KernelInput,
    many: u16,
) -> KernelDecision
    requires { Among many bank.now }
    ensures { told_decision result ≡ decision_of policy input (among_of many bank.now) }
{
    decide_among(policy, bank, input, many).decision
}
