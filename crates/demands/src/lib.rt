// What follows from the rules, for a reader: definitions are in specs/, theorems in proofs/. The functions do nothing: they let a theorem
// speak of every slice that can be lent.
#![tactic(auto)]

ghost use Rattle.std.specs.Prelude.{◌≤◌};
ghost use Rattle.rules.specs.Win.{what_would_win_of};
ghost use Rattle.rules.specs.Margin.{decision_margin_of};
ghost use Rattle.rules.specs.Live.{live_what_would_win_of, live_decision_margin_of};
ghost use Rattle.demands.specs.Demand3.{most_to_win, most_for_margin};

use rules::{KernelInput, PolicySnapshot};

// What is lent is known to be bytes where something is called.
fn lent(bank: &[u8]) {}

// Demand 3. OF EVERY BANK THAT CAN BE LENT: what would win takes at most 86 passes, a margin at most 103, over all its records and over its live ones.
fn few_passes(policy: PolicySnapshot, bank: &[u8], input: KernelInput, id: u32)
    ensures { ((what_would_win_of policy input bank.now id).passes ≤ most_to_win)
        × ((decision_margin_of policy input bank.now).passes ≤ most_for_margin)
        × ((live_what_would_win_of policy input bank.now id).passes ≤ most_to_win)
        × ((live_decision_margin_of policy input bank.now).passes ≤ most_for_margin) }
{
    lent(bank);
}
