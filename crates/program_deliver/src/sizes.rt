// Sizes that always suffice: of what is read of an input, and of each text.

// One byte more than the longest input whose form passes; no answer depends on what comes after.
pub const INPUT_BYTES: usize = 65_639;

// A decision line, a line of counts and four levers.
pub const UNIT_BYTES: usize = 840;

// A decision line, four levers and the passes.
pub const ASK_BYTES: usize = 670;

// The choice, the requested model, why the other one was not chosen, its price, and four levers.
pub const WORDS_BYTES: usize = 1_200;
