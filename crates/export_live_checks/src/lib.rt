// For other crates: what opens an exported function that runs over live records, or edits them. The slots are read once, for what refuses them and
// for how many are live.
#![tactic(auto)]

ghost use Rattle.std.specs.Prelude.{◌≡◌, length};
ghost use Rattle.rules.specs.Refused.{refused, answered, unless};
ghost use Rattle.rules.specs.Numbers.{told_number};
ghost use Rattle.rules.specs.Slots.{live_in};
ghost use Rattle.export_checks.specs.Checks.{lent};
ghost use Rattle.export_live_checks.specs.LiveChecks.{live_lent_faults, live_policy_faults, live_call_faults, live_checked_faults};

use bank::unchecked::input_of;
use call_checks::refuse::input_outcome;
use live_slots::slots::read_slots;
use rules::Refusal;
use rules::limits::REQUEST_BYTES;
use unpacking_policy::policy_lent_outcome;

// 1, 2 or 34 for the bank, then 4 where the answer needs more room.
pub fn live_lent_outcome(bank: &[u8], needed: usize, room: usize) -> Result<u16, Refusal>
    ensures { told_number result ≡ unless (live_lent_faults bank.now needed room) refused (answered (length (live_in bank.now))) }
{
    let live = read_slots(bank)?;
    if room < needed {
        return Err(Refusal::NoRoom);
    }
    Ok(live)
}

// 22 or 23 for the policy, then 1, 2, 34 and 4.
pub fn live_policy_outcome(
    policy: &[u8],
    bank: &[u8],
    needed: usize,
    room: usize,
) -> Result<u16, Refusal>
    ensures { told_number result ≡ unless (live_policy_faults policy.now bank.now needed room) refused (answered (length (live_in bank.now))) }
{
    policy_lent_outcome(policy)?;
    live_lent_outcome(bank, needed, room)
}

// 22 for the request, then the same.
pub fn live_call_outcome(
    policy: &[u8],
    request: &[u8],
    bank: &[u8],
    needed: usize,
    room: usize,
) -> Result<u16, Refusal>
    ensures { told_number result ≡ unless (live_call_faults (lent policy.now request.now bank.now) needed room) refused (answered (length (live_in bank.now))) }
{
    if request.len() != REQUEST_BYTES {
        return Err(Refusal::WrongLength);
    }
    live_policy_outcome(policy, bank, needed, room)
}

// The same, then 3 for the request.
pub fn live_checked_call_outcome(
    policy: &[u8],
    request: &[u8],
    bank: &[u8],
    needed: usize,
    room: usize,
) -> Result<u16, Refusal>
    ensures { told_number result ≡ unless (live_checked_faults (lent policy.now request.now bank.now) needed room) refused (answered (length (live_in bank.now))) }
{
    let live = live_call_outcome(policy, request, bank, needed, room)?;
    input_outcome(input_of(request), 0)?;
    Ok(live)
}
