// For other crates: the eligible entries of an explanation, one after the other. Users have the call from `explain`, which passes it on.
#![tactic(auto)]

ghost use Rattle.std.specs.Prelude.{◌≡◌};
ghost use Rattle.rules.specs.Numbers.{told_next};
ghost use Rattle.rules.specs.Explain.{next_eligible_of};

use rules::limits::EXPLANATION_BYTES;

// The verdict of an eligible entry, and where it stands in one.
const ELIGIBLE: u8 = 4;

const VERDICT_AT: usize = 6;

// `Explanation::eligible`, one step of it: the place of the first eligible entry at or after a place. Bytes after the
// last whole entry are none.
pub fn next_eligible(list: &[u8], from: usize) -> Option<usize>
    ensures { told_next result ≡ next_eligible_of list.now from }
{
    for place in from..list.len() / EXPLANATION_BYTES {
        if list[EXPLANATION_BYTES * place + VERDICT_AT] == ELIGIBLE {
            return Some(place);
        }
    }
    None
}
