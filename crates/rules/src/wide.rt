// Numbers that 64 bits do not hold: the Rust's u128 and i128.

// hi * 2^64 + lo.
#[derive(Clone, Copy)]
pub struct Wide {
    pub hi: u64,
    pub lo: u64,
}

// A number of two limbs with its sign, which is a part of the number and no flag beside it. Zero is not negative.
#[derive(Clone, Copy)]
pub struct SignedWide {
    pub negative: bool,
    pub size: Wide,
}
