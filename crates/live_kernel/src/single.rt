// One live model: its slot, and its utility.
ghost use Rattle.std.specs.Prelude.{◌≡◌};
ghost use Rattle.rules.specs.Numbers.{told_utility, told_found};
ghost use Rattle.rules.specs.Live.{live_find_of, live_utility_for_model_of};

use kernel_utility::utility_in;
use live_slots::slots::{first_live, read_slots};
use rules::{KernelInput, PolicySnapshot, Refusal};

// `find` over live records: the slot of the first one with an id. Id 0 is nowhere. Refused: 1, 2, 34.
pub fn find(bank: &[u8], id: u32) -> Result<Option<u16>, Refusal>
    ensures { told_found result ≡ live_find_of id bank.now }
{
    read_slots(bank)?;
    Ok(first_live(bank, id))
}

// `utility_for_model` over live records. Refused: 1, 2, 34, then 7 where the request is stopped, no live record has the id, or the first that has isn't
// eligible; id 0 is no live record's.
pub fn utility_for_model(
    policy: PolicySnapshot,
    bank: &[u8],
    input: KernelInput,
    id: u32,
) -> Result<i64, Refusal>
    ensures { told_utility result ≡ live_utility_for_model_of policy input id bank.now }
{
    read_slots(bank)?;
    if id == 0 {
        return Err(Refusal::NotEligible);
    }
    utility_in(policy, bank, input, id)
}
