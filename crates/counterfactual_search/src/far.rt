// The searches of a margin: the far end is tried first, and where it still wins there is no boundary.
ghost use Rattle.std.specs.Prelude.{◌≡◌, ◌≤◌};
ghost use Rattle.rules.specs.Halving.{Lowest, Highest, search_after_far_end};
ghost use Rattle.counterfactual_search.specs.Search.{told_side, wins_on, Within};

use crate::search::{HIGHEST, LOWEST, searched};
use crate::side::Side;
use counterfactual_pass::held::Held;
use rules::Bound;

// The search after the far end.
fn searched_after(held: &Held, lever: u8, side: Side, low: u64, high: u64) -> Bound
    requires { (low ≤ high) × Within lever low high }
    ensures { result ≡ search_after_far_end (told_side side) (wins_on held.now lever) low high }
{
    if held.wins(lever, side.far_end(low, high)) {
        return Bound {
            boundary: None,
            passes: 1,
        };
    }
    let mut found = searched(held, lever, side, low, high);
    found.passes += 1;
    found
}

// The lowest value from low to high that wins, where the low end doesn't.
pub fn lowest_above(held: &Held, lever: u8, low: u64, high: u64) -> Bound
    requires { (low ≤ high) × Within lever low high }
    ensures { result ≡ search_after_far_end Lowest (wins_on held.now lever) low high }
{
    searched_after(held, lever, LOWEST, low, high)
}

// The highest value from low to high that wins, where the high end doesn't.
pub fn highest_below(held: &Held, lever: u8, low: u64, high: u64) -> Bound
    requires { (low ≤ high) × Within lever low high }
    ensures { result ≡ search_after_far_end Highest (wins_on held.now lever) low high }
{
    searched_after(held, lever, HIGHEST, low, high)
}
