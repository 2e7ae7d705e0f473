// A model and a request from an array of exactly their bytes: what users call, since nothing is asked of it.
// No `From`: only `rules`, where both types stand, could give one.
ghost use Rattle.std.specs.Prelude.{◌≡◌};
ghost use Rattle.rules.specs.Records.{model_of, input_of};

use crate::{input_of, model_of};
use rules::limits::{ModelBytes, RequestBytes};
use rules::{KernelInput, KernelModel};

// The model that 47 bytes say.
pub fn model_from(bytes: &ModelBytes) -> KernelModel
    ensures { result ≡ model_of bytes.now }
{
    model_of(bytes)
}

// The request that 70 bytes say.
pub fn input_from(bytes: &RequestBytes) -> KernelInput
    ensures { result ≡ input_of bytes.now }
{
    input_of(bytes)
}
