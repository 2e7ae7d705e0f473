// For other crates: sums, differences and the order of numbers of two limbs, where the Rust computes in u128 and i128. A contract speaks of
// what the numbers stand for (`val`, and `val_z` with a sign): how limbs carry and borrow concerns nobody outside this file.
#![tactic(auto)]

ghost use Rattle.std.specs.Prelude.{◌≡◌, min, ◌+◌, ◌-◌, ◌^◌, ◌<◌, ◌≤◌, ltb, pos, ◌-ℤ◌};
ghost use Rattle.rules.specs.Limits.{max_u64};
ghost use Rattle.rules.specs.Wide.{val, val_z};

use rules::{SignedWide, Wide};

// x itself: the Rust's `i128::from` and `u128::from`.
pub fn of_one(x: u64) -> Wide
    ensures { val result ≡ x }
{
    Wide { hi: 0, lo: x }
}

// The sum of two numbers, which leaves two bits free: the sum in `model_cost_reference`.
pub fn add(a: Wide, b: Wide) -> Wide
    requires { val a + val b < 2 ^ 126 }
    ensures { val result ≡ val a + val b }
{
    let (lo, carry) = a.lo.carrying_add(b.lo, false);
    let hi = u64::from(carry) + a.hi + b.hi;
    Wide { hi, lo }
}

// Whether a is below b.
pub fn is_less(a: Wide, b: Wide) -> bool
    ensures { result ≡ ltb (val a) (val b) }
{
    // By limb: for the order of `(hi, lo)` as a pair, which says the same, no proof was found.
    if a.hi == b.hi {
        a.lo < b.lo
    } else {
        a.hi < b.hi
    }
}

// a less b, where b is not above a.
fn without(a: Wide, b: Wide) -> Wide
    requires { val b ≤ val a }
    ensures { val result ≡ val a - val b }
{
    let (lo, borrow) = a.lo.borrowing_sub(b.lo, false);
    let hi = a.hi - (u64::from(borrow) + b.hi);
    Wide { hi, lo }
}

// a less b, exact, with its sign: the subtractions before `clamp_i128_to_i64`. Where the two are level it is not negative.
pub fn difference(a: Wide, b: Wide) -> SignedWide
    ensures { (val_z result ≡ pos (val a) -ℤ pos (val b)) × (result.negative ≡ ltb (val a) (val b)) }
{
    if is_less(a, b) {
        SignedWide {
            negative: true,
            size: without(b, a),
        }
    } else {
        SignedWide {
            negative: false,
            size: without(a, b),
        }
    }
}

// w, or the highest u64 where w is above that: the end of `model_cost_reference`.
pub fn held(w: Wide) -> u64
    ensures { result ≡ min max_u64 (val w) }
{
    if w.hi == 0 { w.lo } else { u64::MAX }
}
