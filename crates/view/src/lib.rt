// A view: the lent bank, an index, and one model by value that stands in for the record there. It is the Rust's `with_model` without
// the copy of the catalogue.
#![tactic(auto)]

ghost use Rattle.std.specs.Prelude.{◌≡◌, ◌≤◌, length};
ghost use Rattle.rules.specs.Limits.{max_catalog_models};
ghost use Rattle.rules.specs.Records.{records_in, listed_of};
ghost use Rattle.rules.specs.Numbers.{told_decision, told_prescribed};
ghost use Rattle.rules.specs.Decide.{decision_of};
ghost use Rattle.rules.specs.View.{with_model, view_of};

use call_checks::refuse::bank_outcome;
use kernel_decide::decide::decide;
use kernel_decide::stand::decide_with;
use packing::model_bytes;
use rules::limits::RECORD_BYTES;
use rules::{KernelDecision, KernelInput, KernelModel, PolicySnapshot, Refusal};

#[derive(Clone, Copy)]
pub struct View<'a> {
    pub bank: &'a [u8],
    // An index beyond the bank means the bank as it is.
    pub index: usize,
    pub model: KernelModel,
}

// The decision over a bank of whole records with a model in the record at an index.
fn decide_in(
    policy: PolicySnapshot,
    bank: &[u8],
    input: KernelInput,
    index: usize,
    model: KernelModel,
) -> KernelDecision
    requires { records_in (length bank.now) ≤ max_catalog_models }
    ensures { told_decision result ≡ decision_of policy input (with_model (listed_of bank.now) index model) }
{
    if bank.len() / RECORD_BYTES <= index {
        return decide(policy, bank, input);
    }
    decide_with(policy, bank, input, index, &model_bytes(model))
}

// `with_model`: the bank with a model in the record at an index.
pub fn with_model<'a>(bank: &'a [u8], index: usize, model: KernelModel) -> View<'a>
    ensures { (result.bank ≡ bank.entry) × (result.index ≡ index) × (result.model ≡ model) }
{
    View { bank, index, model }
}

// The decision through a view. Refused: 1, 2.
pub fn view_decide<'a>(
    view: View<'a>,
    policy: PolicySnapshot,
    input: KernelInput,
) -> Result<KernelDecision, Refusal>
    ensures { told_prescribed result ≡ view_of policy input view.entry.bank.now view.entry.index view.entry.model }
{
    bank_outcome(view.bank.len())?;
    Ok(decide_in(policy, view.bank, input, view.index, view.model))
}

// The decision through a view, for callers that hold none. Refused: 1, 2.
pub fn decide_with_model(
    policy: PolicySnapshot,
    bank: &[u8],
    input: KernelInput,
    index: usize,
    model: KernelModel,
) -> Result<KernelDecision, Refusal>
    ensures { told_prescribed result ≡ view_of policy input bank.now index model }
{
    view_decide(with_model(bank, index, model), policy, input)
}
