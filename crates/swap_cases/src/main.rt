// The live calls and the edits on what is damaged: every set of up to six faults at once, at many places each, by a policy with an allowance and by one
// without, through each of the eleven calls.
// Told must be the first fault in the documents' order, and no lent byte may change. The worked example is standard input.
#![tactic(auto)]

mod calls;
mod damage;
mod owed;

use program_streams::read_full;
use std::io;

fn main(rt: HostRuntime) -> io::Result<()> {
    let mut example = [0u8; damage::EXAMPLE_BYTES];
    read_full(&mut rt.stdin(), &mut example)?;
    let told = damage::every(example);
    println!(rt; "{} cases, {} differ", told.cases, told.different)?;
    if let Some(first) = told.first {
        println!(rt; "the first, by call, faults and place: {first}")?;
    }
    Ok(())
}
