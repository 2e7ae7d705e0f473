// Replays a fixed list of questions with the answers that are owed, and tells how many there are, how many differ, and who told them. The list
// is standard input; compare/cases made it from the Rust and from a second reading of the rules. No Rust is needed here.
#![tactic(auto)]

mod calls;
mod entry;
mod list;

use program_streams::read_full;
use std::io;

// The longest list that is read.
const LIST_BYTES: usize = 786_432;

// Room for it. It comes from a call, since the prover writes out an array that it sees made.
fn list_room() -> [u8; LIST_BYTES] {
    [0u8; LIST_BYTES]
}

fn main(rt: HostRuntime) -> io::Result<()> {
    let mut space = list_room();
    let n = read_full(&mut rt.stdin(), &mut space)?;
    let told = list::replayed(&space[..n]);
    print!(rt;
        "{} answers, {} differ; told by the Rust {}",
        told.answers, told.different, told.rust
    )?;
    println!(rt;
        ", by the second reading {}, by both {}",
        told.second, told.both
    )?;
    if told.left != 0 {
        println!(rt; "the list is cut short")?;
    }
    Ok(())
}
