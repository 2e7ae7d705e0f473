// For other crates: what the programs' input says, once its fields are seen to be whole, and what refuses it. The bank is the very part of
// the input in which it stands.
#![tactic(auto)]

ghost use Rattle.std.specs.Prelude.{◌≡◌};
ghost use Rattle.rules.specs.Refused.{first_fault, told_outcome};
ghost use Rattle.rules.specs.Stored.{stored_policy, stored_bank};
ghost use Rattle.rules.specs.Printed.{program_request, program_faults};
ghost use Rattle.program_input.specs.Formed.{Formed, formed_faults};

use bank::unchecked::input_of;
use call_checks::refuse::input_outcome;
use catalogue_validation::catalog_outcome;
use rules::limits::{MAX_PROGRAM_MODELS, RECORD_BYTES};
use rules::{KernelInput, PolicySnapshot, Refusal};
use stored_fields::{ALLOWANCE_TAG, BANK_TAG, POLICY_TAG, REQUEST_TAG, ROUNDING_TAG};
use stored_layout::{after_front, after_opening, front_body, lay_out};

// Tags 1, 4 and 5: the policy.
pub fn policy_in(input: &[u8]) -> PolicySnapshot
    requires { Formed input.now }
    ensures { result ≡ stored_policy input.now }
{
    stored_layout::policy_in(input)
}

// Tag 2: the bank.
pub fn bank_in(input: &[u8]) -> &[u8]
    requires { Formed input.now }
    ensures { result.now ≡ stored_bank input.now }
{
    front_body(after_front(input))
}

// Tag 3: the request.
pub fn request_in(input: &[u8]) -> KernelInput
    requires { Formed input.now }
    ensures { result ≡ program_request input.now }
{
    input_of(front_body(after_opening(input)))
}

// 20 to 23 and 25 over all fields, then 19.
fn formed_outcome(input: &[u8]) -> Result<(), Refusal>
    ensures { told_outcome result ≡ first_fault (formed_faults input.now) }
{
    let tags = [
        POLICY_TAG,
        BANK_TAG,
        ROUNDING_TAG,
        ALLOWANCE_TAG,
        REQUEST_TAG,
    ];
    lay_out(input, &tags)?;
    if MAX_PROGRAM_MODELS < bank_in(input).len() / RECORD_BYTES {
        return Err(Refusal::TooManyForProgram);
    }
    Ok(())
}

// Whether the programs answer an input, and if not, why: 20 to 23 and 25, 19, validation, 3.
pub fn program_outcome(input: &[u8]) -> Result<(), Refusal>
    ensures { told_outcome result ≡ first_fault (program_faults input.now) }
{
    formed_outcome(input)?;
    catalog_outcome(policy_in(input), bank_in(input))?;
    input_outcome(request_in(input), 0)
}
