// Inputs of `unit` and `ask`, stored forms, request forms and banks that are cut, changed, too long or wrong in several ways at once, each with
// the text or the answer that the documents give it (the desk's sentences are our own). Prints how many there are and how many differ, and which
// one differs first. Nothing that is owed here is worked out by the calls that are tried.
#![tactic(auto)]

mod allowed;
mod answers;
mod banks;
mod calls;
mod damage;
mod example;
mod faults;
mod forms;
mod free;
mod groups;
mod limits;
mod marks;
mod once;
mod orders;
mod owing;
mod pairs;
mod parts;
mod reading;
mod refused;
mod rounded;
mod sizes;
mod spoken;
mod tally;
mod texts;
mod writing;

use std::io;

// Every case, what is printed first.
fn main(rt: HostRuntime) -> io::Result<()> {
    tally::tell(&rt, forms::every_form(groups::every()))
}
