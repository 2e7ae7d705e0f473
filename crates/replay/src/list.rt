// The list's entries, one after the other.
use crate::entry::first;

// What was replayed: how many answers, how many of them differ, how many were told by the Rust, by the second reading and by both, and how
// many bytes of the list are left over.
#[derive(Clone, Copy, Default)]
pub(crate) struct Told {
    pub answers: u64,
    pub different: u64,
    pub rust: u64,
    pub second: u64,
    pub both: u64,
    pub left: usize,
}

// Who told an answer. By number: it is an entry's first byte.
const BY_RUST: u8 = 1;

const BY_SECOND: u8 = 2;

const BY_BOTH: u8 = 3;

// Every entry of the list.
pub(crate) fn replayed(list: &[u8]) -> Told {
    let mut told = Told::default();
    let mut rest = list;
    while let Some(entry) = first(rest) {
        rest = &rest[entry.size..];
        told.answers += 1;
        told.different += u64::from(!entry.same);
        told.rust += u64::from(entry.by == BY_RUST);
        told.second += u64::from(entry.by == BY_SECOND);
        told.both += u64::from(entry.by == BY_BOTH);
    }
    told.left = rest.len();
    told
}
