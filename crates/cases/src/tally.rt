// What the cases come to.
use std::io;
use std::io::Print;

// What one number of a group is.
#[derive(Clone, Copy)]
pub(crate) enum Seen {
    Same,
    Differs,
    // Nothing to ask: the number stands for no input, or for one that another number has.
    NoCase,
}

// How many cases there are, how many differ, and the group and number of the first that does.
#[derive(Clone, Copy, Default)]
pub(crate) struct Tally {
    pub cases: u64,
    pub different: u64,
    pub first: Option<(u64, u64)>,
}

// A case that was asked.
pub(crate) fn judged(same: bool) -> Seen {
    if same { Seen::Same } else { Seen::Differs }
}

// One case more that differs.
fn differing(mut tally: Tally, group: u64, number: u64) -> Tally {
    tally.first = tally.first.or(Some((group, number)));
    tally.different = tally.different.wrapping_add(1);
    tally
}

// A tally with one number more; a number that stands for no case is not counted.
pub(crate) fn noted(mut tally: Tally, group: u64, number: u64, what: Seen) -> Tally {
    match what {
        Seen::NoCase => return tally,
        Seen::Differs => tally = differing(tally, group, number),
        Seen::Same => {}
    }
    tally.cases = tally.cases.wrapping_add(1);
    tally
}

// Prints what the cases come to.
pub(crate) fn tell(rt: &impl Print, tally: Tally) -> io::Result<()> {
    println!(rt; "{} cases, {} differ", tally.cases, tally.different)?;
    if let Some((group, number)) = tally.first {
        println!(rt; "the first, by group and number: {group} {number}")?;
    }
    Ok(())
}
