// What is owed for some faults at once: a table of which faults a call can have, in the documents' order. Nothing here asks the library.

ghost use Rattle.std.specs.Prelude.{◌≤◌};

// Faults are the digits of a number: 1 a request or record of another length, 2 a policy of another length, 4 its 31st byte neither 0 nor 1, 8 a
// bank that isn't whole, 16 a slot with id 0 and another byte set, 32 too little room. 64 is no fault: the policy says an allowance.
pub(crate) const FAULTS: usize = 128;

pub(crate) const SHORT_OFFER: usize = 1;

pub(crate) const SHORT_POLICY: usize = 2;

pub(crate) const BAD_ROUNDING: usize = 4;

pub(crate) const UNEVEN: usize = 8;

pub(crate) const UNCLEAR: usize = 16;

pub(crate) const NO_ROOM: usize = 32;

pub(crate) const ALLOWING: usize = 64;

// Whether a set of faults has one.
pub(crate) fn has(faults: usize, one: usize) -> bool {
    faults & one != 0
}

// Finding has no request and no policy, removing and compacting have no record.
fn has_offer(call: usize) -> bool {
    call != 3 && call < 9
}

// 22 or 23 of what a call is lent beside the bank.
fn lent_fault(call: usize, faults: usize) -> Option<u64> {
    if has(faults, SHORT_OFFER) && has_offer(call) {
        return Some(22);
    }
    if call == 3 {
        return None;
    }
    if has(faults, SHORT_POLICY) {
        return Some(22);
    }
    has(faults, BAD_ROUNDING).then_some(23)
}

// 1, 34 or 4 of the bank and the room.
fn later_fault(faults: usize) -> Option<u64> {
    if has(faults, UNEVEN) {
        return Some(1);
    }
    if has(faults, UNCLEAR) {
        return Some(34);
    }
    has(faults, NO_ROOM).then_some(4)
}

// The number that is owed, if one of the faults is the call's.
pub(crate) fn owed(call: usize, faults: usize) -> Option<u64> {
    lent_fault(call, faults).or(later_fault(faults))
}

// The room that a call's answer needs.
pub(crate) fn needed(call: usize) -> usize
    ensures { result ≤ 183 }
{
    match call {
        0..=1 => 83,
        2 => 65,
        4 => 8,
        5..=6 => 183,
        _ => 2,
    }
}

// The length of what is offered.
pub(crate) fn offered(call: usize) -> usize
    ensures { result ≤ 70 }
{
    if call < 7 { 70 } else { 47 }
}
