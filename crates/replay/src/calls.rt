// The library's calls by their numbers, each on what an entry lends. By number: as the list's bytes say them. None where there is no such call.

// 1 to 5: the kernel's calls.
fn kernel_call(
    call: u8,
    id: u32,
    policy: &[u8],
    request: &[u8],
    bytes: &[u8],
    out: &mut [u8],
) -> Option<u64> {
    let word = match call {
        1 => volankizo::volankizo_prescribe(policy, request, bytes, out),
        2 => volankizo::volankizo_prescribe_checked(policy, request, bytes, out),
        3 => volankizo::volankizo_utility_for_model(policy, request, bytes, id, out),
        4 => volankizo::volankizo_find(bytes, id, out),
        5 => volankizo::volankizo_check_request(request),
        _ => return None,
    };
    Some(word)
}

// 6 to 11, but for 9: those above it.
fn call_above(
    call: u8,
    id: u32,
    place: u64,
    policy: &[u8],
    request: &[u8],
    bytes: &[u8],
    space: &mut [u8],
    out: &mut [u8],
) -> Option<u64> {
    let word = match call {
        6 => volankizo::volankizo_explain(policy, request, bytes, space, out),
        7 => volankizo::volankizo_next_eligible(bytes, place, out),
        8 => volankizo::volankizo_validate(policy, bytes),
        10 => volankizo::volankizo_what_would_win(policy, request, bytes, id, out),
        11 => volankizo::volankizo_decision_margin(policy, request, bytes, out),
        _ => return None,
    };
    Some(word)
}

// 12 to 19: a record's offset, the two forms, and what is printed.
fn form_call(
    call: u8,
    id: u32,
    place: u64,
    policy: &[u8],
    request: &[u8],
    bytes: &[u8],
    space: &mut [u8],
    out: &mut [u8],
) -> Option<u64> {
    let word = match call {
        12 => volankizo::volankizo_record_at(bytes, place, out),
        13 => volankizo::volankizo_write_stored(policy, bytes, out),
        14 => volankizo::volankizo_read_stored(bytes, space, out),
        15 => volankizo::volankizo_write_request(request, out),
        16 => volankizo::volankizo_read_request(bytes, out),
        17 => volankizo::volankizo_unit_text(bytes, out),
        18 => volankizo::volankizo_ask_text(bytes, id, out),
        19 => volankizo::volankizo_ask_words(bytes, id, out),
        _ => return None,
    };
    Some(word)
}

// 20 to 26: those on the live records of a bank.
fn live_call(
    call: u8,
    id: u32,
    policy: &[u8],
    request: &[u8],
    bytes: &[u8],
    space: &mut [u8],
    out: &mut [u8],
) -> Option<u64> {
    let word = match call {
        20 => volankizo::volankizo_live_prescribe(policy, request, bytes, out),
        21 => volankizo::volankizo_live_prescribe_checked(policy, request, bytes, out),
        22 => volankizo::volankizo_live_explain(policy, request, bytes, space, out),
        23 => volankizo::volankizo_live_find(bytes, id, out),
        24 => volankizo::volankizo_live_utility_for_model(policy, request, bytes, id, out),
        25 => volankizo::volankizo_live_what_would_win(policy, request, bytes, id, out),
        26 => volankizo::volankizo_live_decision_margin(policy, request, bytes, out),
        _ => return None,
    };
    Some(word)
}

// 9 and 27 to 30: those that change a bank in its place, and but for 9 the policy too.
fn edit_call(
    call: u8,
    id: u32,
    policy: &mut [u8],
    bank: &mut [u8],
    record: &[u8],
    out: &mut [u8],
) -> Option<u64> {
    let word = match call {
        9 => volankizo::volankizo_trust(policy, bank),
        27 => volankizo::volankizo_live_add(policy, bank, record, out),
        28 => volankizo::volankizo_live_replace(policy, bank, record, out),
        29 => volankizo::volankizo_live_remove(policy, bank, id, out),
        30 => volankizo::volankizo_live_compact(policy, bank, out),
        _ => return None,
    };
    Some(word)
}

// 31 and 32: a row of requests, of which the count is told.
fn batch_call(
    call: u8,
    count: u64,
    policy: &[u8],
    requests: &[u8],
    bytes: &[u8],
    out: &mut [u8],
) -> Option<u64> {
    let word = match call {
        31 => volankizo::volankizo_prescribe_batch(policy, requests, count, bytes, out),
        32 => volankizo::volankizo_prescribe_batch_checked(policy, requests, count, bytes, out),
        _ => return None,
    };
    Some(word)
}

// Whether a call changes a bank in its place.
pub(crate) fn changes_bank(call: u8) -> bool {
    matches!(call, 9 | 27..=30)
}

// The call with this number. What is offered to an edit, and a row of requests, stand in the request's place, a row's count in that of the place, and
// the bank that is changed in that of the space.
pub(crate) fn called(
    call: u8,
    id: u32,
    place: u64,
    policy: &mut [u8],
    request: &[u8],
    bytes: &[u8],
    space: &mut [u8],
    out: &mut [u8],
) -> Option<u64> {
    match call {
        0..=5 => kernel_call(call, id, policy, request, bytes, out),
        9 | 27..=30 => edit_call(call, id, policy, space, request, out),
        6..=11 => call_above(call, id, place, policy, request, bytes, space, out),
        12..=19 => form_call(call, id, place, policy, request, bytes, space, out),
        20..=26 => live_call(call, id, policy, request, bytes, space, out),
        _ => batch_call(call, place, policy, request, bytes, out),
    }
}
