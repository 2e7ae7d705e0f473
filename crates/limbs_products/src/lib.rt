// For other crates: products of two u64 as numbers of two limbs, and their quotients, where the Rust multiplies and divides in u128. As in `limbs`,
// a contract speaks of what the numbers stand for.
#![tactic(auto)]

ghost use Rattle.std.specs.Prelude.{◌≡◌, ◌+◌, ◌*◌, ◌/◌, ◌^◌, ◌<◌};
ghost use Rattle.rules.specs.Wide.{val, limbs};

use rules::Wide;

// Half a limb, 2^32: two factors below it multiply within 64 bits.
pub const HALF: u64 = 0x1_0000_0000;
// The place of a limb's highest bit: 2^63.
const TOP_BIT: u64 = 0x8000_0000_0000_0000;
// The bits of a limb.
const LIMB_BITS: u64 = 64;

// The whole product of two u64, by halves of a limb: the multiplications of `scaled_term_reference` and `model_cost_reference`.
pub fn product(u: u64, v: u64) -> Wide
    ensures { val result ≡ u * v }
{
    let u0 = u % HALF;
    let u1 = u / HALF;
    let v0 = v % HALF;
    let v1 = v / HALF;
    let low = u0 * v0;
    let mid = u1 * v0 + low / HALF;
    let cross = mid % HALF + u0 * v1;
    Wide {
        hi: u1 * v1 + mid / HALF + cross / HALF,
        lo: cross % HALF * HALF + low % HALF,
    }
}

// A limb of a quotient, and what the division leaves to the next limb.
#[derive(Clone, Copy)]
struct Division {
    quotient: u64,
    rem: u64,
}

// One limb by d, bit by bit from the highest; `carried` is what the limb above left. A turn shifts the next bit into the
// remainder. That is then below 2 * d, so d goes into it once, a one in the quotient, or not at all.
fn divide_limb(limb: u64, carried: u64, d: u64) -> Division
    requires { (carried < d) × (d < 2 ^ 32) }
    ensures { (result.quotient * d + result.rem ≡ limbs carried limb) × (result.rem < d) }
{
    let mut quotient = 0;
    let mut rem = carried;
    let mut rest = limb;
    for _turn in 0..LIMB_BITS {
        rem = rem * 2 + rest / TOP_BIT;
        rest = rest % TOP_BIT * 2;
        quotient *= 2;
        if d <= rem {
            rem -= d;
            quotient += 1;
        }
    }
    Division { quotient, rem }
}

// w by d, rounded down: the divisions of `scaled_term_reference` and `model_cost_reference`. Every quotient of a wide
// number is taken here.
pub fn quotient(w: Wide, d: u64) -> Wide
    requires { (0 < d) × (d < 2 ^ 32) }
    ensures { val result ≡ val w / d }
{
    let upper = divide_limb(w.hi, 0, d);
    let lower = divide_limb(w.lo, upper.rem, d);
    Wide {
        hi: upper.quotient,
        lo: lower.quotient,
    }
}
