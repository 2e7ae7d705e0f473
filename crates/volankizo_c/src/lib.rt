// The static library: the thirty-three functions of `volankizo`, under their own names and with the same promises, for callers in C. A slice crosses as a pointer
// and then a length. What each takes, writes and refuses stands at the function of that name in `volankizo`, and in the header.
#![tactic(auto)]

mod batch;
mod forms;
mod live;

ghost use Rattle.std.specs.Prelude.{◌≡◌};
ghost use Rattle.rules.specs.Refused.{first_fault};
ghost use Rattle.version.specs.Version.{this_version};
ghost use Rattle.export_checks.specs.Checks.{lent, word_of, check_faults};
ghost use Rattle.export_calls.specs.Calls.{prescribe_call, prescribe_checked_call, explain_call};
ghost use Rattle.export_lookups.specs.Lookups.{utility_call, find_call, next_call};
ghost use Rattle.export_catalogue.specs.Catalogue.{validate_faults, trust_call};
ghost use Rattle.export_bounds.specs.Bounds.{win_call, margin_call};

#[unsafe(no_mangle)]
pub extern "C" fn volankizo_version() -> u64
    ensures { result ≡ this_version }
{
    volankizo::volankizo_version()
}

#[unsafe(no_mangle)]
pub extern "C" fn volankizo_prescribe(
    policy: &[u8],
    request: &[u8],
    bank: &[u8],
    out: &mut [u8],
) -> u64
    ensures { (result, out.new) ≡ prescribe_call (lent policy.now request.now bank.now) out.old }
{
    volankizo::volankizo_prescribe(policy, request, bank, out)
}

#[unsafe(no_mangle)]
pub extern "C" fn volankizo_prescribe_checked(
    policy: &[u8],
    request: &[u8],
    bank: &[u8],
    out: &mut [u8],
) -> u64
    ensures { (result, out.new) ≡ prescribe_checked_call (lent policy.now request.now bank.now) out.old }
{
    volankizo::volankizo_prescribe_checked(policy, request, bank, out)
}

#[unsafe(no_mangle)]
pub extern "C" fn volankizo_utility_for_model(
    policy: &[u8],
    request: &[u8],
    bank: &[u8],
    id: u32,
    out: &mut [u8],
) -> u64
    ensures { (result, out.new) ≡ utility_call (lent policy.now request.now bank.now) id out.old }
{
    volankizo::volankizo_utility_for_model(policy, request, bank, id, out)
}

#[unsafe(no_mangle)]
pub extern "C" fn volankizo_find(bank: &[u8], id: u32, out: &mut [u8]) -> u64
    ensures { (result, out.new) ≡ find_call bank.now id out.old }
{
    volankizo::volankizo_find(bank, id, out)
}

#[unsafe(no_mangle)]
pub extern "C" fn volankizo_check_request(request: &[u8]) -> u64
    ensures { result ≡ word_of (first_fault (check_faults request.now)) }
{
    volankizo::volankizo_check_request(request)
}

#[unsafe(no_mangle)]
pub extern "C" fn volankizo_explain(
    policy: &[u8],
    request: &[u8],
    bank: &[u8],
    list: &mut [u8],
    out: &mut [u8],
) -> u64
    ensures { ((result, out.new), list.new) ≡ explain_call (lent policy.now request.now bank.now)
        list.old out.old }
{
    volankizo::volankizo_explain(policy, request, bank, list, out)
}

#[unsafe(no_mangle)]
pub extern "C" fn volankizo_next_eligible(list: &[u8], from: u64, out: &mut [u8]) -> u64
    ensures { (result, out.new) ≡ next_call list.now from out.old }
{
    volankizo::volankizo_next_eligible(list, from, out)
}

#[unsafe(no_mangle)]
pub extern "C" fn volankizo_validate(policy: &[u8], bank: &[u8]) -> u64
    ensures { result ≡ word_of (first_fault (validate_faults policy.now bank.now)) }
{
    volankizo::volankizo_validate(policy, bank)
}

#[unsafe(no_mangle)]
pub extern "C" fn volankizo_trust(policy: &[u8], bank: &mut [u8]) -> u64
    ensures { (result, bank.new) ≡ trust_call policy.now bank.old }
{
    volankizo::volankizo_trust(policy, bank)
}

#[unsafe(no_mangle)]
pub extern "C" fn volankizo_what_would_win(
    policy: &[u8],
    request: &[u8],
    bank: &[u8],
    id: u32,
    out: &mut [u8],
) -> u64
    ensures { (result, out.new) ≡ win_call (lent policy.now request.now bank.now) id out.old }
{
    volankizo::volankizo_what_would_win(policy, request, bank, id, out)
}

#[unsafe(no_mangle)]
pub extern "C" fn volankizo_decision_margin(
    policy: &[u8],
    request: &[u8],
    bank: &[u8],
    out: &mut [u8],
) -> u64
    ensures { (result, out.new) ≡ margin_call (lent policy.now request.now bank.now) out.old }
{
    volankizo::volankizo_decision_margin(policy, request, bank, out)
}
