// For other crates: the scan, one loop over a part of a bank that goes on from a state.
#![tactic(auto)]

ghost use Rattle.std.specs.Prelude.{◌≡◌, length, set};
ghost use Rattle.rules.specs.Records.{listed, listed_of, model_of};
ghost use Rattle.pricing.specs.Pricing.{Settled, pricing_of};
ghost use Rattle.kernel_ranking.specs.State.{start_of};
ghost use Rattle.kernel_ranking.specs.After.{scan_of};
ghost use Rattle.kernel_scan.specs.Places.{placed_from};
ghost use Rattle.kernel_scan.specs.Scan.{Room, StandsIn};

use bank::unchecked::model_at;
use kernel_ranking::rank::ranked;
use kernel_ranking::state::{State, start};
use kernel_verdict::{Verdict, counted, entered, verdict_of};
use pricing::{Pricing, pricing_of};
use rules::limits::RECORD_BYTES;
use rules::{KernelInput, PolicySnapshot};

// What a policy and a request settle once for all records.
pub fn pricing_for(policy: PolicySnapshot, input: KernelInput) -> Pricing
    ensures { (result ≡ pricing_of policy input) × Settled result }
{
    pricing_of(policy, input)
}

// The state after the records of a part, whose first record has a given place. A stand-in is a part of one record, so that the loop has
// no test for it.
pub fn scan_on(part: &[u8], first: u16, pricing: Pricing, input: KernelInput, from: State) -> State
    requires { Settled pricing × Room (length part.now) first from }
    ensures { result ≡ scan_of pricing input from (placed_from first part.now) }
{
    let mut state = from;
    for i in 0..part.len() / RECORD_BYTES {
        let model = model_at(part, i);
        let verdict = verdict_of(pricing, input, model);
        let place = first + i as u16;
        let Verdict::Eligible(terms) = verdict else {
            state.counts = counted(state.counts, verdict);
            continue;
        };
        state.eligible += 1;
        state.top = ranked(state.top, entered(model, place, terms));
    }
    state
}

// The state after a bank that has another record at a place: what is before the place, the stand-in's bytes, what is after it.
pub fn scan_with(
    bank: &[u8],
    place: usize,
    stand: &[u8],
    pricing: Pricing,
    input: KernelInput,
) -> State
    requires { Settled pricing × StandsIn (length bank.now) place (length stand.now) }
    ensures { result ≡ scan_of pricing input start_of (set (listed_of bank.now) place (listed place (model_of stand.now))) }
{
    let at = RECORD_BYTES * place;
    let after = at + RECORD_BYTES;
    let here = place as u16;
    let before = scan_on(&bank[..at], 0, pricing, input, start());
    let there = scan_on(stand, here, pricing, input, before);
    scan_on(&bank[after..], here + 1, pricing, input, there)
}
