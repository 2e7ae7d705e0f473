// The eleven calls by their numbers, on what is lent.

pub(crate) const CALLS: usize = 11;

// The id that is looked up or removed: the example's first model's.
const ID: u32 = 1;

// The word of a call: 0 to 6 run over live records, 7 to 10 edit. `offered` is its request, or its record.
pub(crate) fn asked(
    call: usize,
    policy: &mut [u8],
    bank: &mut [u8],
    offered: &[u8],
    list: &mut [u8],
    out: &mut [u8],
) -> u64 {
    match call {
        0 => volankizo::volankizo_live_prescribe(policy, offered, bank, out),
        1 => volankizo::volankizo_live_prescribe_checked(policy, offered, bank, out),
        2 => volankizo::volankizo_live_explain(policy, offered, bank, list, out),
        3 => volankizo::volankizo_live_find(bank, ID, out),
        4 => volankizo::volankizo_live_utility_for_model(policy, offered, bank, ID, out),
        5 => volankizo::volankizo_live_what_would_win(policy, offered, bank, ID, out),
        6 => volankizo::volankizo_live_decision_margin(policy, offered, bank, out),
        7 => volankizo::volankizo_live_add(policy, bank, offered, out),
        8 => volankizo::volankizo_live_replace(policy, bank, offered, out),
        9 => volankizo::volankizo_live_remove(policy, bank, ID, out),
        _ => volankizo::volankizo_live_compact(policy, bank, out),
    }
}
