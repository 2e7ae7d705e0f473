// Validation record by record: 12, 13, 14.
ghost use Rattle.std.specs.Prelude.{◌≡◌, [], ◌++◌};
ghost use Rattle.rules.specs.Refused.{first_fault, told_outcome};
ghost use Rattle.rules.specs.Records.{listed_of, model_at};
ghost use Rattle.rules.specs.Validate.{provider_faults, model_faults, record_faults, records_faults};
ghost use Rattle.catalogue_records.specs.Ids.{earlier_ids, Looked};

use crate::ids::{ids_rise, repeat_outcome};
use bank::unchecked::model_at;
use rules::limits::{MAX_BPS, MAX_PROVIDER_ID, RECORD_BYTES};
use rules::{KernelModel, Refusal};

// 13 for the provider, then 14 for the quality and the ceiling.
#[tactic(auto, unfolding(rules::specs::Validate::provider_faults, rules::specs::Validate::model_faults, rules::specs::Refused::first_fault, rules::specs::Refused::told_outcome))]
fn model_outcome(model: KernelModel) -> Result<(), Refusal>
    ensures { told_outcome result ≡ first_fault (provider_faults model ++ model_faults model) }
{
    if MAX_PROVIDER_ID < model.provider_id {
        return Err(Refusal::InvalidProviderId {
            model_id: model.model_id,
            provider_id: model.provider_id,
        });
    }
    if MAX_BPS < model.quality_bps {
        return Err(Refusal::ModelOutOfRange {
            field: 7,
            model_id: model.model_id,
            value: model.quality_bps,
        });
    }
    if MAX_BPS < model.risk_ceiling_bps {
        return Err(Refusal::ModelOutOfRange {
            field: 8,
            model_id: model.model_id,
            value: model.risk_ceiling_bps,
        });
    }
    Ok(())
}

// One record, by those before it.
fn record_outcome(bank: &[u8], place: usize, rising: bool) -> Result<(), Refusal>
    requires { Looked bank.now place rising }
    ensures { told_outcome result ≡ first_fault (record_faults (earlier_ids bank.now place) (model_at bank.now place)) }
{
    repeat_outcome(bank, place, rising)?;
    model_outcome(model_at(bank, place))
}

// All of them, the first that is refused.
pub fn records_outcome(bank: &[u8]) -> Result<(), Refusal>
    ensures { told_outcome result ≡ first_fault (records_faults [] (listed_of bank.now)) }
{
    let rising = ids_rise(bank);
    for place in 0..bank.len() / RECORD_BYTES {
        record_outcome(bank, place, rising)?;
    }
    Ok(())
}
