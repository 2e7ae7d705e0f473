// The worked example: the 203 bytes of its input.

// Where the bank's field begins, its models, the request's field, and the end.
pub(crate) const BANK: usize = 33;

pub(crate) const MODELS: usize = 36;

pub(crate) const AFTER_BANK: usize = 130;

pub(crate) const END: usize = 203;

// Tag 1, length 30: epochs 7 and 3, hard risk 9,000, confidence 2,000, multiplier 10,000, penalty 10.
// Tag 2, length 94.
// Id 1, provider 0, quality 9,000, ceiling 8,000, on, 100 ms, capabilities 3, region 1, prices 3,000,000 and 15,000,000.
// Id 2, provider 1, quality 8,000, ceiling 8,000, on, 50 ms, capabilities 1, region 1, prices 1,000,000 and 2,000,000.
// Tag 3, length 70: sequence 42, model 1, 100 tokens each way, value 10,000, budget 5,000,
// risk 1,000, confidence 10,000, minimum quality 5,000, no latency limit, capability 1, all providers, no region.
pub(crate) fn example() -> [u8; 203] {
    *b"\x01\x1e\0\x07\0\0\0\0\0\0\0\x03\0\0\0\0\0\0\0\x28\x23\xd0\x07\x10\x27\x0a\0\0\0\0\0\0\0\
        \x02\x5e\0\
        \x01\0\0\0\0\0\x28\x23\x40\x1f\x01\x64\0\0\0\x03\0\0\0\0\0\0\0\x01\0\0\0\0\0\0\0\xc0\xc6\x2d\0\0\0\0\0\xc0\xe1\xe4\0\0\0\0\0\
        \x02\0\0\0\x01\0\x40\x1f\x40\x1f\x01\x32\0\0\0\x01\0\0\0\0\0\0\0\x01\0\0\0\0\0\0\0\x40\x42\x0f\0\0\0\0\0\x80\x84\x1e\0\0\0\0\0\
        \x03\x46\0\x2a\0\0\0\0\0\0\0\x01\0\0\0\x64\0\0\0\x64\0\0\0\x10\x27\0\0\0\0\0\0\x88\x13\0\0\0\0\0\0\
        \xe8\x03\x10\x27\x88\x13\0\0\0\0\x01\0\0\0\0\0\0\0\xff\xff\xff\xff\xff\xff\xff\xff\0\0\0\0\0\0\0\0"
}
