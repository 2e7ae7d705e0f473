// One entry of the list. Its first byte says who told the answer: 1 the Rust, 2 a second reading of the rules, 3 both. Then the call's number,
// the id, the place or the count that it takes (8 bytes), five lengths of two bytes, the policy, the request, the row of them or the record that is
// offered, the bytes that are read, the word that is owed, and the policy, the space and the buffer as they are owed after the call.
ghost use Rattle.std.specs.Prelude.{◌≡◌, ◌+◌, ◌<◌, ◌≤◌, length, IfSome};

use crate::calls::{called, changes_bank};
use endian::{u16_at, u32_at, u64_at};

// One entry: its size, who told its answer, and whether the call answers so.
#[derive(Clone, Copy)]
pub(crate) struct Entry {
    pub size: usize,
    pub by: u8,
    pub same: bool,
}

// The bytes before the policy.
const HEADER: usize = 20;

// The bytes of a word.
const WORD: usize = 8;

// The most bytes of a policy, a space or a buffer, and what fills them before the call.
const ROOM: usize = 1_024;

const FILL: u8 = 165;

// What is owed where there is no such call: no refusal's word is so high.
const NO_CALL: u64 = u64::MAX;

// How long the policy is, where the other parts that are read end, and how long the space and the buffer are.
#[derive(Clone, Copy)]
struct Parts {
    policy: usize,
    request: usize,
    bytes: usize,
    space: usize,
    buffer: usize,
}

fn parts_of(list: &[u8]) -> Parts
    requires { 20 ≤ length list.now }
    ensures order { (20 + result.policy ≤ result.request) × (result.request ≤ result.bytes) × (result.bytes ≤ 196625) }
    ensures widths { (result.policy ≤ 65535) × (result.space ≤ 65535) × (result.buffer ≤ 65535) }
{
    let policy = usize::from(u16_at(list, 10));
    let request = HEADER + policy + usize::from(u16_at(list, 12));
    Parts {
        policy,
        request,
        bytes: request + usize::from(u16_at(list, 14)),
        space: usize::from(u16_at(list, 16)),
        buffer: usize::from(u16_at(list, 18)),
    }
}

// Whether the word and the policy, the space and the buffer after a call are those that stand at the front of some bytes.
fn owed(told: &[u8], word: Option<u64>, policy: &[u8], space: &[u8], buffer: &[u8]) -> bool
    requires { 8 + length policy.now + length space.now + length buffer.now ≤ length told.now }
{
    let (changed, rest) = told[WORD..].split_at(policy.len());
    let (filled, rest) = rest.split_at(space.len());
    u64_at(told, 0) == word.unwrap_or(NO_CALL)
        && changed == policy
        && filled == space
        && &rest[..buffer.len()] == buffer
}

// Whether a call answers as it owes: the word, and every byte of the policy, of the space and of the buffer.
fn replays(list: &[u8], parts: Parts, policy: &mut [u8], space: &mut [u8]) -> bool
    requires { (20 + parts.policy ≤ parts.request) × (parts.request ≤ parts.bytes) × (length policy.old ≡ parts.policy) × (length space.old ≡ parts.space) × (parts.buffer ≤ 1024) × (parts.bytes + 8 + parts.policy + parts.space + parts.buffer ≤ length list.now) }
{
    let mut room = [FILL; ROOM];
    let buffer = &mut room[..parts.buffer];
    let word = called(
        list[1],
        u32_at(list, 2),
        u64_at(list, 2),
        policy,
        &list[HEADER + parts.policy..parts.request],
        &list[parts.request..parts.bytes],
        space,
        buffer,
    );
    owed(&list[parts.bytes..], word, policy, space, buffer)
}

// A copy of a bank that is changed, in the space; false where the space is of another length, since a bank is as long before as after.
fn bank_lent(call: u8, bytes: &[u8], space: &mut [u8]) -> bool {
    if !changes_bank(call) {
        return true;
    }
    if bytes.len() != space.len() {
        return false;
    }
    space.copy_from_slice(bytes);
    true
}

// Whether an entry with these parts is answered as it owes. The policy's room begins with a copy of it, and so does the space with one of a bank that
// is changed.
fn replayed(list: &[u8], parts: Parts) -> bool
    requires { (parts.policy ≤ 1024) × (20 + parts.policy ≤ parts.request) × (parts.request ≤ parts.bytes) × (parts.space ≤ 1024) × (parts.buffer ≤ 1024) × (parts.bytes + 8 + parts.policy + parts.space + parts.buffer ≤ length list.now) }
{
    let mut policy_room = [FILL; ROOM];
    let policy = &mut policy_room[..parts.policy];
    policy.copy_from_slice(&list[HEADER..HEADER + parts.policy]);
    let mut space_room = [FILL; ROOM];
    let space = &mut space_room[..parts.space];
    bank_lent(list[1], &list[parts.request..parts.bytes], space)
        && replays(list, parts, policy, space)
}

// The first entry of what is left of the list; none where it is cut short.
pub(crate) fn first(list: &[u8]) -> Option<Entry>
    ensures { IfSome result (λ entry. (0 < entry.size) × (entry.size ≤ length list.now)) }
{
    if list.len() < HEADER {
        return None;
    }
    let parts = parts_of(list);
    if ROOM < parts.policy || ROOM < parts.space || ROOM < parts.buffer {
        return None;
    }
    let size = parts.bytes + WORD + parts.policy + parts.space + parts.buffer;
    if list.len() < size {
        return None;
    }
    Some(Entry {
        size,
        by: list[0],
        same: replayed(list, parts),
    })
}
