// Trusted loading: what is tested of the bank as it came, the ordering, then validation of the ordered bank.
ghost use Rattle.std.specs.Prelude.{◌≡◌};
ghost use Rattle.rules.specs.Records.{listed_of};
ghost use Rattle.rules.specs.Refused.{told_outcome, first_fault};
ghost use Rattle.rules.specs.Trust.{reserved_faults, flag_faults, early_faults, trust_of, trust_bank};

use bank::unchecked::model_at;
use call_checks::refuse::bank_outcome;
use catalogue_validation::catalog_outcome;
use rules::limits::RECORD_BYTES;
use rules::{PolicySnapshot, Refusal};
use sorting::insertion::{id_at, order};

// 16 where some id is 0, which a rejection carries.
fn reserved_outcome(bank: &[u8]) -> Result<(), Refusal>
    ensures { told_outcome result ≡ first_fault (reserved_faults (listed_of bank.now)) }
{
    for place in 0..bank.len() / RECORD_BYTES {
        if id_at(bank, place) == 0 {
            return Err(Refusal::ReservedModelId);
        }
    }
    Ok(())
}

// 17 for the first record whose enabled is above 1.
fn flag_outcome(bank: &[u8]) -> Result<(), Refusal>
    ensures { told_outcome result ≡ first_fault (flag_faults (listed_of bank.now)) }
{
    for place in 0..bank.len() / RECORD_BYTES {
        let model = model_at(bank, place);
        if 1 < model.enabled {
            return Err(Refusal::InvalidEnabledFlag {
                model_id: model.model_id,
                value: model.enabled,
            });
        }
    }
    Ok(())
}

// What is found before the ordering: 1, 2, then 16 over the whole bank, then 17.
fn early_outcome(bank: &[u8]) -> Result<(), Refusal>
    ensures { told_outcome result ≡ first_fault (early_faults bank.now) }
{
    bank_outcome(bank.len())?;
    reserved_outcome(bank)?;
    flag_outcome(bank)
}

// `trust`: the bank in ascending id order, equal ids in their old order, and whether it may then serve. Refused with the bank as it was:
// 1, 2, 16, 17; with the bank in order: 10, 11, then record by record 12, 13, 14, then 15.
pub fn trust(policy: PolicySnapshot, bank: &mut [u8]) -> Result<(), Refusal>
    ensures { (told_outcome result ≡ trust_of policy bank.old) × (bank.new ≡ trust_bank bank.old) }
{
    early_outcome(bank)?;
    order(bank);
    catalog_outcome(policy, bank)
}
