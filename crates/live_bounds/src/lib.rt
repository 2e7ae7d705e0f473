// What would win, and the margin, over a bank's live records alone, as if the catalogue listed nothing else. For other crates: users have the calls
// from `live`, which passes them on.
#![tactic(auto)]

ghost use Rattle.std.specs.Prelude.{◌≡◌};
ghost use Rattle.rules.specs.Levers.{told_bounds};
ghost use Rattle.rules.specs.Live.{live_what_would_win_of, live_decision_margin_of};

use counterfactual_margin::margin_among;
use counterfactual_win::win_among;
use live_slots::slots::{first_live, read_slots};
use rules::{Boundaries, KernelInput, PolicySnapshot, Refusal};

// `what_would_win`, where the bank's free slots are no models. Refused: 1, 2, 34, then 5 where no live record has the id, as none has id 0.
pub fn what_would_win(
    policy: PolicySnapshot,
    bank: &[u8],
    input: KernelInput,
    id: u32,
) -> Result<Boundaries, Refusal>
    ensures { told_bounds result ≡ live_what_would_win_of policy input bank.now id }
{
    let many = read_slots(bank)?;
    win_among(policy, bank, input, id, first_live(bank, id), many)
}

// `decision_margin`, likewise. Refused: 1, 2, 34, then 6 where the decision is a rejection.
pub fn decision_margin(
    policy: PolicySnapshot,
    bank: &[u8],
    input: KernelInput,
) -> Result<Boundaries, Refusal>
    ensures { told_bounds result ≡ live_decision_margin_of policy input bank.now }
{
    margin_among(policy, bank, input, read_slots(bank)?)
}
