// For other crates: the utility of one model. Its record is a part of a bank like any other, so a scan of that part says it. Users have
// `utility_for_model` from `kernel`, which passes it on.
#![tactic(auto)]

ghost use Rattle.std.specs.Prelude.{◌≡◌, ◌<◌, ◌≤◌, length};
ghost use Rattle.rules.specs.Limits.{max_catalog_models};
ghost use Rattle.rules.specs.Records.{records_in, listed_of, model_at};
ghost use Rattle.rules.specs.Numbers.{told_utility};
ghost use Rattle.rules.specs.Verdict.{verdict_of};
ghost use Rattle.rules.specs.Decide.{if_eligible, utility_in, utility_for_model_of};
ghost use Rattle.kernel_utility.specs.Single.{worth_from};

use call_checks::listing::first_listed;
use call_checks::refuse::bank_outcome;
use kernel_ranking::state::{State, start};
use kernel_scan::{pricing_for, scan_on};
use kernel_stop::stopped_by;
use pricing_terms::utility_of_score;
use rules::limits::RECORD_BYTES;
use rules::{KernelInput, PolicySnapshot, Refusal};

// The best one's utility, or 7 where nothing is eligible.
#[tactic(auto, unfolding(crate::specs::Single::worth_from, rules::specs::Choice::equal))]
fn worth_of(state: State) -> Result<i64, Refusal>
    ensures { told_utility result ≡ worth_from state }
{
    if state.eligible == 0 {
        return Err(Refusal::NotEligible);
    }
    Ok(utility_of_score(state.top.best.score))
}

// The utility of the model at a place.
fn utility_at(
    policy: PolicySnapshot,
    bank: &[u8],
    input: KernelInput,
    place: u16,
) -> Result<i64, Refusal>
    requires { (place < records_in (length bank.now)) × (records_in (length bank.now) ≤ max_catalog_models) }
    ensures { told_utility result ≡ if_eligible (verdict_of policy input (model_at bank.now place)) }
{
    let at = RECORD_BYTES * usize::from(place);
    let record = &bank[at..at + RECORD_BYTES];
    worth_of(scan_on(record, place, pricing_for(policy, input), input, start()))
}

// The utility of the first listed model with an id, in a bank of whole records.
pub fn utility_in(
    policy: PolicySnapshot,
    bank: &[u8],
    input: KernelInput,
    id: u32,
) -> Result<i64, Refusal>
    requires { records_in (length bank.now) ≤ max_catalog_models }
    ensures { told_utility result ≡ utility_in policy input id (listed_of bank.now) }
{
    if stopped_by(policy, input).is_some() {
        return Err(Refusal::NotEligible);
    }
    let Some(place) = first_listed(bank, id) else {
        return Err(Refusal::NotEligible);
    };
    utility_at(policy, bank, input, place)
}

// `utility_for_model`: the utility of one model. Refused: 1, 2, then 7 where the request is stopped, the id isn't listed, or its first
// listed record isn't eligible.
pub fn utility_for_model(
    policy: PolicySnapshot,
    bank: &[u8],
    input: KernelInput,
    id: u32,
) -> Result<i64, Refusal>
    ensures { told_utility result ≡ utility_for_model_of policy input id bank.now }
{
    bank_outcome(bank.len())?;
    utility_in(policy, bank, input, id)
}
