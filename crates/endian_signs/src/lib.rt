// Signed numbers and the 64 bits that say them, in two's complement: the library's casts, held to the rules' words, and the laws of both ways
// (`proofs/Signs`) on which the round trips of `packing` stand.
#![tactic(auto)]

ghost use Rattle.std.specs.Prelude.{◌≡◌};
ghost use Rattle.std.specs.Int.{w64};
ghost use Rattle.std.proofs.Common.{to_z, of_z};

// The signed number that 64 bits say.
pub fn signed(x: u64) -> i64
    ensures { result ≡ to_z w64 x }
{
    x.cast_signed()
}

// The 64 bits that say a signed number.
pub fn signed_bits(x: i64) -> u64
    ensures { result ≡ of_z w64 x }
{
    x.cast_unsigned()
}
