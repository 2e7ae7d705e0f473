// A refusal as one word.
ghost use Rattle.std.specs.Prelude.{◌≡◌, ◌+◌, ◌*◌, ◌^◌};
ghost use Rattle.rules.specs.Refused.{told_refusal, told_outcome};
ghost use Rattle.export_checks.specs.Checks.{word_at, word_of};

use rules::Refusal;

// The four parts of a word, each in its bits.
fn word(number: u8, field: u8, value: u16, at: u32) -> u64
    ensures { result ≡ number + 2 ^ 8 * field + 2 ^ 16 * value + 2 ^ 32 * at }
{
    u64::from(number)
        + 256 * u64::from(field)
        + 65_536 * u64::from(value)
        + 4_294_967_296 * u64::from(at)
}

// A refusal's number with its values. The place goes into the word of a request's refusal alone: no other tells one.
#[tactic(auto, unfolding(rules::specs::Choice::equal))]
pub fn refusal_word(refusal: Refusal, place: u32) -> u64
    ensures { result ≡ word_at place (told_refusal refusal) }
{
    let number = refusal.number();
    match refusal {
        Refusal::InputOutOfRange { field, value, .. } => word(number, field, value, place),
        Refusal::PolicyOutOfRange { field, value } => word(number, field, value, 0),
        Refusal::DuplicateModelId { model_id } => word(number, 0, 0, model_id),
        Refusal::InvalidProviderId {
            model_id,
            provider_id,
        } => word(number, 0, provider_id, model_id),
        Refusal::ModelOutOfRange {
            field,
            model_id,
            value,
        } => word(number, field, value, model_id),
        Refusal::InvalidEnabledFlag { model_id, value } => {
            word(number, 0, u16::from(value), model_id)
        }
        _ => word(number, 0, 0, 0),
    }
}

// The word of a call that isn't of a batch, so that its place is 0: the refusal's, or 0 where it answered.
#[tactic(auto, unfolding(rules::specs::Refused::told_outcome))]
pub fn outcome_word(outcome: Result<(), Refusal>) -> u64
    ensures { result ≡ word_of (told_outcome outcome) }
{
    match outcome {
        Ok(()) => 0,
        Err(refusal) => refusal_word(refusal, 0),
    }
}
