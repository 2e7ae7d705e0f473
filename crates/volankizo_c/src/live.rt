// Over a bank whose models are swapped.

ghost use Rattle.std.specs.Prelude.{◌≡◌};
ghost use Rattle.export_checks.specs.Checks.{lent};
ghost use Rattle.export_live_calls.specs.LiveCalls.{live_prescribe_call, live_prescribe_checked_call, live_explain_call};
ghost use Rattle.export_live_lookups.specs.LiveLookups.{live_find_call, live_utility_call};
ghost use Rattle.export_live_bounds.specs.LiveBounds.{live_win_call, live_margin_call};
ghost use Rattle.export_edits.specs.Edits.{stock, add_call, replace_call, remove_call, compact_call};

#[unsafe(no_mangle)]
pub extern "C" fn volankizo_live_prescribe(
    policy: &[u8],
    request: &[u8],
    bank: &[u8],
    out: &mut [u8],
) -> u64
    ensures { (result, out.new) ≡ live_prescribe_call (lent policy.now request.now bank.now) out.old }
{
    volankizo::volankizo_live_prescribe(policy, request, bank, out)
}

#[unsafe(no_mangle)]
pub extern "C" fn volankizo_live_prescribe_checked(
    policy: &[u8],
    request: &[u8],
    bank: &[u8],
    out: &mut [u8],
) -> u64
    ensures { (result, out.new) ≡ live_prescribe_checked_call (lent policy.now request.now bank.now)
        out.old }
{
    volankizo::volankizo_live_prescribe_checked(policy, request, bank, out)
}

#[unsafe(no_mangle)]
pub extern "C" fn volankizo_live_explain(
    policy: &[u8],
    request: &[u8],
    bank: &[u8],
    list: &mut [u8],
    out: &mut [u8],
) -> u64
    ensures { ((result, out.new), list.new) ≡ live_explain_call (lent policy.now request.now bank.now)
        list.old out.old }
{
    volankizo::volankizo_live_explain(policy, request, bank, list, out)
}

#[unsafe(no_mangle)]
pub extern "C" fn volankizo_live_find(bank: &[u8], id: u32, out: &mut [u8]) -> u64
    ensures { (result, out.new) ≡ live_find_call bank.now id out.old }
{
    volankizo::volankizo_live_find(bank, id, out)
}

#[unsafe(no_mangle)]
pub extern "C" fn volankizo_live_utility_for_model(
    policy: &[u8],
    request: &[u8],
    bank: &[u8],
    id: u32,
    out: &mut [u8],
) -> u64
    ensures { (result, out.new) ≡ live_utility_call (lent policy.now request.now bank.now) id out.old }
{
    volankizo::volankizo_live_utility_for_model(policy, request, bank, id, out)
}

#[unsafe(no_mangle)]
pub extern "C" fn volankizo_live_what_would_win(
    policy: &[u8],
    request: &[u8],
    bank: &[u8],
    id: u32,
    out: &mut [u8],
) -> u64
    ensures { (result, out.new) ≡ live_win_call (lent policy.now request.now bank.now) id out.old }
{
    volankizo::volankizo_live_what_would_win(policy, request, bank, id, out)
}

#[unsafe(no_mangle)]
pub extern "C" fn volankizo_live_decision_margin(
    policy: &[u8],
    request: &[u8],
    bank: &[u8],
    out: &mut [u8],
) -> u64
    ensures { (result, out.new) ≡ live_margin_call (lent policy.now request.now bank.now) out.old }
{
    volankizo::volankizo_live_decision_margin(policy, request, bank, out)
}

#[unsafe(no_mangle)]
pub extern "C" fn volankizo_live_add(
    policy: &mut [u8],
    bank: &mut [u8],
    bytes: &[u8],
    out: &mut [u8],
) -> u64
    ensures { ((result, out.new), stock policy.new bank.new) ≡ add_call (stock policy.old bank.old)
        bytes.now out.old }
{
    volankizo::volankizo_live_add(policy, bank, bytes, out)
}

#[unsafe(no_mangle)]
pub extern "C" fn volankizo_live_replace(
    policy: &mut [u8],
    bank: &mut [u8],
    bytes: &[u8],
    out: &mut [u8],
) -> u64
    ensures { ((result, out.new), stock policy.new bank.new) ≡ replace_call (stock policy.old bank.old)
        bytes.now out.old }
{
    volankizo::volankizo_live_replace(policy, bank, bytes, out)
}

#[unsafe(no_mangle)]
pub extern "C" fn volankizo_live_remove(
    policy: &mut [u8],
    bank: &mut [u8],
    id: u32,
    out: &mut [u8],
) -> u64
    ensures { ((result, out.new), stock policy.new bank.new) ≡ remove_call (stock policy.old bank.old) id
        out.old }
{
    volankizo::volankizo_live_remove(policy, bank, id, out)
}

#[unsafe(no_mangle)]
pub extern "C" fn volankizo_live_compact(policy: &mut [u8], bank: &mut [u8], out: &mut [u8]) -> u64
    ensures { ((result, out.new), stock policy.new bank.new) ≡ compact_call (stock policy.old bank.old)
        out.old }
{
    volankizo::volankizo_live_compact(policy, bank, out)
}
