// For other crates: what a call refuses before it decides, the bank's length, then the request's fields.
ghost use Rattle.std.specs.Prelude.{◌≡◌, ◌++◌};
ghost use Rattle.rules.specs.Refused.{length_faults, told_outcome, first_fault};
ghost use Rattle.rules.specs.Decide.{request_faults, request_check};

use rules::limits::{MAX_BPS, MAX_CATALOG_MODELS, RECORD_BYTES};
use rules::{KernelInput, Refusal};

// 1 where a bank of so many bytes has no whole number of records, 2 where it has too many. What is known of a bank then is asked by the functions that need
// it, and is no type: users' calls take a slice, and so do these.
pub fn bank_outcome(length: usize) -> Result<(), Refusal>
    ensures { told_outcome result ≡ first_fault (length_faults length) }
{
    if length % RECORD_BYTES != 0 {
        return Err(Refusal::UnevenBank);
    }
    if MAX_CATALOG_MODELS < length / RECORD_BYTES {
        return Err(Refusal::CatalogTooLarge);
    }
    Ok(())
}

// The first field of a request that is above 10,000.
pub fn input_outcome(input: KernelInput, place: usize) -> Result<(), Refusal>
    ensures { told_outcome result ≡ first_fault (request_faults input place) }
{
    if MAX_BPS < input.risk_bps {
        return Err(Refusal::InputOutOfRange {
            field: 1,
            value: input.risk_bps,
            place,
        });
    }
    if MAX_BPS < input.confidence_bps {
        return Err(Refusal::InputOutOfRange {
            field: 2,
            value: input.confidence_bps,
            place,
        });
    }
    if MAX_BPS < input.minimum_quality_bps {
        return Err(Refusal::InputOutOfRange {
            field: 3,
            value: input.minimum_quality_bps,
            place,
        });
    }
    Ok(())
}

// `KernelInput::validate`: the request check alone.
pub fn validate_input(input: KernelInput) -> Result<(), Refusal>
    ensures { told_outcome result ≡ request_check input }
{
    input_outcome(input, 0)
}

// Of a checked call: the bank first, then the request.
pub fn checked_outcome(length: usize, input: KernelInput) -> Result<(), Refusal>
    ensures { told_outcome result ≡ first_fault (length_faults length ++ request_faults input 0) }
{
    bank_outcome(length)?;
    input_outcome(input, 0)
}
