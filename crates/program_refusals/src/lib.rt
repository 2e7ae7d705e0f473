// For other crates: what refuses an input, in words, put into a buffer from a position on, which must leave room.
#![tactic(auto)]

ghost use Rattle.std.specs.Prelude.{◌≡◌, ◌+◌, ◌≤◌, length};
ghost use Rattle.rules.specs.Refused.{told_refusal};
ghost use Rattle.rules.specs.FaultWords.{too_many, field_words, range_words, fault_words, refused_words};
ghost use Rattle.rules.specs.Phrases.{sentence};
ghost use Rattle.rules.specs.NotChosen.{of_model};
ghost use Rattle.rules.specs.Text.{text};
ghost use Rattle.std.proofs.Math.Option.{some};
ghost use Rattle.splice.specs.Placed.{placed};
ghost use Rattle.program_refusals.specs.Parts.{provider_words, form_words};

use program_lines::put_refused;
use program_phrases::{put_about, put_comparing, put_remark, put_sentence};
use rules::Refusal;
use text::{put_byte, put_text};

// A number of basis points above the highest that is allowed.
fn put_too_many(out: &mut [u8], at: usize, name: &[u8], value: u16, highest: &[u8]) -> usize
    requires { at + (length name.now + 60 + length highest.now) ≤ length out.old }
    ensures out_after { some (result, out.new) ≡ placed out.old at (too_many name.now value highest.now) }
    ensures upper_bound { result ≤ at + (length name.now + 60 + length highest.now) }
{
    let next = put_about(out, at, name, u64::from(value), b" basis points; at most ");
    let end = put_text(out, next, highest);
    put_text(out, end, b" are allowed.")
}

// The same where the whole is the highest.
#[tactic(auto, unfolding(rules::specs::Text::text))]
fn put_past_whole(out: &mut [u8], at: usize, name: &[u8], value: u16) -> usize
    requires { at + (length name.now + 65) ≤ length out.old }
    ensures out_after { some (result, out.new) ≡ placed out.old at (too_many name.now value (text "10000")) }
    ensures upper_bound { result ≤ at + (length name.now + 65) }
{
    put_too_many(out, at, name, value, b"10000")
}

// Which field of the request or of the policy, and what it says.
fn put_field(out: &mut [u8], at: usize, field: u8, value: u16) -> usize
    requires { at + 110 ≤ length out.old }
    ensures out_after { some (result, out.new) ≡ placed out.old at (field_words field value) }
    ensures upper_bound { result ≤ at + 110 }
{
    let multiplier = b"The policy's risk multiplier is ";
    match field {
        1 => put_past_whole(out, at, b"The request's risk is ", value),
        2 => put_past_whole(out, at, b"The request's confidence is ", value),
        3 => put_past_whole(out, at, b"The request's minimum quality is ", value),
        4 => put_past_whole(out, at, b"The policy's hard risk limit is ", value),
        5 => put_past_whole(out, at, b"The policy's minimum confidence is ", value),
        _ => put_too_many(out, at, multiplier, value, b"50000"),
    }
}

// A model's quality or ceiling.
#[tactic(auto, unfolding(rules::specs::FaultWords::range_words, rules::specs::Choice::equal, rules::specs::Text::text))]
fn put_range(out: &mut [u8], at: usize, field: u8, value: u16) -> usize
    requires { at + 110 ≤ length out.old }
    ensures out_after { some (result, out.new) ≡ placed out.old at (range_words field value) }
    ensures upper_bound { result ≤ at + 110 }
{
    if field == 7 {
        return put_past_whole(out, at, b" has a quality of ", value);
    }
    put_past_whole(out, at, b" has a risk ceiling of ", value)
}

// The sentence about a field of the request or of the policy.
fn put_field_sentence(out: &mut [u8], at: usize, field: u8, value: u16) -> usize
    requires { at + 111 ≤ length out.old }
    ensures out_after { some (result, out.new) ≡ placed out.old at (sentence (field_words field value)) }
    ensures upper_bound { result ≤ at + 111 }
{
    let end = put_field(out, at, field, value);
    put_byte(out, end, b'\n')
}

// The sentence about a model's quality or ceiling.
fn put_range_sentence(out: &mut [u8], at: usize, id: u32, field: u8, value: u16) -> usize
    requires { at + 140 ≤ length out.old }
    ensures out_after { some (result, out.new) ≡ placed out.old at (of_model id (range_words field value)) }
    ensures upper_bound { result ≤ at + 140 }
{
    let next = put_about(out, at, b"Model ", u64::from(id), b"");
    let end = put_range(out, next, field, value);
    put_byte(out, end, b'\n')
}

// The sentence about a model's provider.
fn put_provider(out: &mut [u8], at: usize, id: u32, provider: u16) -> usize
    requires { at + 140 ≤ length out.old }
    ensures out_after { some (result, out.new) ≡ placed out.old at (provider_words id provider) }
    ensures upper_bound { result ≤ at + 140 }
{
    let range = b"; providers go from 0 to 63.";
    let end = put_comparing(
        out,
        at,
        b"Model ",
        u64::from(id),
        b" has provider ",
        u64::from(provider),
        range,
    );
    put_byte(out, end, b'\n')
}

// The sentences of 19 to 23 and 25; no other refusal that comes here has one.
fn put_form_fault(out: &mut [u8], at: usize, refusal: Refusal) -> usize
    requires { at + 70 ≤ length out.old }
    ensures out_after { some (result, out.new) ≡ placed out.old at (form_words (told_refusal refusal).number) }
    ensures upper_bound { result ≤ at + 70 }
{
    let misplaced = b"A field of the input is missing, out of its order, or one too many.";
    let misfit = b"A field of the input has a length that its tag does not have.";
    let unrounded = b"The input's rounding, under tag 4, is not 1.";
    let unallowed = b"The input's latency allowance, under tag 5, is 0.";
    match refusal {
        Refusal::TooManyForProgram => put_sentence(out, at, b"More than 900 models are listed."),
        Refusal::CutShort => put_sentence(out, at, b"The input ends within a field."),
        Refusal::WrongTag => put_sentence(out, at, misplaced),
        Refusal::WrongLength => put_sentence(out, at, misfit),
        Refusal::UnknownRounding => put_sentence(out, at, unrounded),
        Refusal::ZeroAllowance => put_sentence(out, at, unallowed),
        _ => at,
    }
}

// The sentence of a refusal, by the id that was asked about.
#[tactic(auto, unfolding(rules::specs::FaultWords::fault_words, rules::specs::Choice::equal, crate::specs::Parts::provider_words))]
fn put_fault(out: &mut [u8], at: usize, asked: u32, refusal: Refusal) -> usize
    requires { at + 140 ≤ length out.old }
    ensures out_after { some (result, out.new) ≡ placed out.old at (fault_words asked (told_refusal refusal)) }
    ensures upper_bound { result ≤ at + 140 }
{
    match refusal {
        Refusal::InputOutOfRange { field, value, .. } => put_field_sentence(out, at, field, value),
        Refusal::UnknownModel => put_remark(
            out,
            at,
            b"Model ",
            u64::from(asked),
            b" is not listed.",
        ),
        Refusal::PolicyOutOfRange { field, value } => put_field_sentence(out, at, field, value),
        Refusal::EmptyCatalog => put_sentence(out, at, b"No model is listed."),
        Refusal::DuplicateModelId { model_id } => {
            put_remark(
                out,
                at,
                b"Model ",
                u64::from(model_id),
                b" is listed more than once.",
            )
        }
        Refusal::InvalidProviderId {
            model_id,
            provider_id,
        } => put_provider(out, at, model_id, provider_id),
        Refusal::ModelOutOfRange {
            field,
            model_id,
            value,
        } => put_range_sentence(out, at, model_id, field, value),
        Refusal::NoEnabledModels => put_sentence(out, at, b"Every model is switched off."),
        _ => put_form_fault(out, at, refusal),
    }
}

// The line of a refusal, and its sentence.
pub fn put_refused_words(out: &mut [u8], asked: u32, refusal: Refusal) -> usize
    requires { 170 ≤ length out.old }
    ensures { some (result, out.new) ≡ placed out.old 0 (refused_words asked (told_refusal refusal)) }
{
    let next = put_refused(out, 0, refusal);
    put_fault(out, next, asked, refusal)
}
