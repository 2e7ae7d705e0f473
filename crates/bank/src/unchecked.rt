// For other crates of this repository, not for users: each function here asks its caller for enough bytes, and the prover holds the caller to
// it. The model at a place of a bank; passed on, the models, requests and policies that bytes say.
ghost use Rattle.std.specs.Prelude.{◌≡◌, ◌+◌, ◌*◌, ◌≤◌, length};
ghost use Rattle.rules.specs.Limits.{record_bytes};
ghost use Rattle.rules.specs.Records.{model_at};

use rules::KernelModel;
use rules::limits::RECORD_BYTES;
pub use unpacking::{input_of, model_of};
pub use unpacking_policy::{policy_of, policy_with};

// The model at a place of a bank. Loops over records go by places too, not over parts of the bank: what is promised of them speaks of places.
pub fn model_at(bank: &[u8], place: usize) -> KernelModel
    requires { record_bytes * place + record_bytes ≤ length bank.now }
    ensures { result ≡ model_at bank.now place }
{
    let start = RECORD_BYTES * place;
    model_of(&bank[start..start + RECORD_BYTES])
}
