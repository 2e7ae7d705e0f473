// The searches of `counterfactual.rs` by halving, a lever given by its number.
ghost use Rattle.std.specs.Prelude.{◌≡◌, ◌≤◌};
ghost use Rattle.rules.specs.Halving.{Lowest, Highest, found_at, halve, search_of};
ghost use Rattle.counterfactual_search.specs.Search.{told_side, wins_on, Within};

use crate::side::Side;
use counterfactual_pass::held::Held;
use rules::Bound;

// Which value is looked for.
pub const LOWEST: Side = Side::Lowest;

pub const HIGHEST: Side = Side::Highest;

// Where the halving ends, with its passes, the end tried first among them.
fn halved(held: &Held, lever: u8, side: Side, low: u64, high: u64) -> Bound
    requires ordered { low ≤ high }
    requires within { Within lever low high }
    ensures { result ≡ found_at (halve (told_side side) (wins_on held.now lever) low high) }
{
    let mut low = low;
    let mut high = high;
    let mut passes = 1;
    while low < high {
        let mid = side.middle(low, high);
        let won = held.wins(lever, mid);
        (low, high) = side.kept(won, low, mid, high);
        passes += 1;
    }
    Bound {
        boundary: Some(low),
        passes,
    }
}

// The lowest or the highest value from low to high that wins, with its passes. An empty range takes none.
pub(crate) fn searched(held: &Held, lever: u8, side: Side, low: u64, high: u64) -> Bound
    requires { Within lever low high }
    ensures { result ≡ search_of (told_side side) (wins_on held.now lever) low high }
{
    if high < low {
        return Bound {
            boundary: None,
            passes: 0,
        };
    }
    if !held.wins(lever, side.first_tried(low, high)) {
        return Bound {
            boundary: None,
            passes: 1,
        };
    }
    halved(held, lever, side, low, high)
}

// `lowest_true`: the lowest value from low to high that wins, with its passes. The high end is tried first.
pub fn lowest_true(held: &Held, lever: u8, low: u64, high: u64) -> Bound
    requires { Within lever low high }
    ensures { result ≡ search_of Lowest (wins_on held.now lever) low high }
{
    searched(held, lever, LOWEST, low, high)
}

// `highest_true`: the highest value from low to high that wins. The low end is tried first.
pub fn highest_true(held: &Held, lever: u8, low: u64, high: u64) -> Bound
    requires { Within lever low high }
    ensures { result ≡ search_of Highest (wins_on held.now lever) low high }
{
    searched(held, lever, HIGHEST, low, high)
}
