// What a call refuses before it decides: the lengths of what comes in, how the policy rounds, the bank, the room for the answer.
ghost use Rattle.std.specs.Prelude.{◌≡◌};
ghost use Rattle.rules.specs.Refused.{first_fault, told_outcome};
ghost use Rattle.export_checks.specs.Checks.{lent, lent_faults, call_faults, checked_faults, check_faults, word_of};

use crate::word::outcome_word;
use bank::unchecked::input_of;
use call_checks::refuse::{bank_outcome, input_outcome};
use rules::Refusal;
use rules::limits::REQUEST_BYTES;
use unpacking_policy::policy_lent_outcome;

// 1 or 2 for the bank, then 4 where the answer needs more room.
pub fn lent_outcome(bank: &[u8], needed: usize, room: usize) -> Result<(), Refusal>
    ensures { told_outcome result ≡ first_fault (lent_faults bank.now needed room) }
{
    bank_outcome(bank.len())?;
    if room < needed {
        return Err(Refusal::NoRoom);
    }
    Ok(())
}

// 22 for the request or the policy, 23, then 1, 2 and 4. Where both lengths are wrong, each is the same 22.
pub fn call_outcome(
    policy: &[u8],
    request: &[u8],
    bank: &[u8],
    needed: usize,
    room: usize,
) -> Result<(), Refusal>
    ensures { told_outcome result ≡ first_fault (call_faults (lent policy.now request.now bank.now) needed room) }
{
    if request.len() != REQUEST_BYTES {
        return Err(Refusal::WrongLength);
    }
    policy_lent_outcome(policy)?;
    lent_outcome(bank, needed, room)
}

// The same, then 3 for the request.
pub fn checked_call_outcome(
    policy: &[u8],
    request: &[u8],
    bank: &[u8],
    needed: usize,
    room: usize,
) -> Result<(), Refusal>
    ensures { told_outcome result ≡ first_fault (checked_faults (lent policy.now request.now bank.now) needed room) }
{
    call_outcome(policy, request, bank, needed, room)?;
    let input = input_of(request);
    input_outcome(input, 0)
}

// Of the request check alone: 22, then 3.
#[tactic(auto, unfolding(rules::specs::Refused::size_faults, rules::specs::Refused::first_fault, rules::specs::Refused::told_outcome))]
pub fn request_outcome(request: &[u8]) -> Result<(), Refusal>
    ensures { told_outcome result ≡ first_fault (check_faults request.now) }
{
    if request.len() != REQUEST_BYTES {
        return Err(Refusal::WrongLength);
    }
    input_outcome(input_of(request), 0)
}

// Its word.
pub fn request_word(request: &[u8]) -> u64
    ensures { result ≡ word_of (first_fault (check_faults request.now)) }
{
    outcome_word(request_outcome(request))
}
