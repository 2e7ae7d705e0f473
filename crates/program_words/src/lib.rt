// The question from the desk in plain English: who was chosen, why the model asked about was not, and what would make it the choice.
#![tactic(auto)]

ghost use Rattle.std.specs.Prelude.{◌≡◌, ◌++◌, ◌+◌, ◌≤◌, eqb, length};
ghost use Rattle.rules.specs.Limits.{max_catalog_models};
ghost use Rattle.rules.specs.Records.{records_in, listed_of};
ghost use Rattle.rules.specs.Numbers.{told_written, told_decision, told_verdict, told_boundaries};
ghost use Rattle.rules.specs.Listing.{first_listed};
ghost use Rattle.rules.specs.Verdict.{verdict_of};
ghost use Rattle.rules.specs.Printed.{print_of, print_buffer};
ghost use Rattle.rules.specs.NotChosen.{quality_of, standing_words};
ghost use Rattle.rules.specs.Words.{requested_words, searched_words, stopped_words, already_words, model_words, listed_words, words_report, ask_words};
ghost use Rattle.std.proofs.Math.Option.{some};
ghost use Rattle.splice.specs.Placed.{placed};
ghost use Rattle.program_deliver.specs.Sizes.{words_bytes};

use bank::unchecked::model_at;
use call_checks::listing::first_listed;
use counterfactual_pass::pass::selected;
use explain_entries::verdict::verdict_alone;
use kernel_scan::pricing_for;
use program_ask::asked;
use program_deliver::deliver;
use program_deliver::sizes::WORDS_BYTES;
use program_input::{bank_in, policy_in, request_in};
use program_phrases::{put_remark, put_sentence};
use program_refusals::put_refused_words;
use program_sentences::{put_searched, put_unsearched};
use program_standing::choice::put_choice;
use program_standing::standing::put_standing;
use rules::{Boundaries, CandidateVerdict, KernelInput, KernelModel, PolicySnapshot, Refusal};

// The quality of the first listed record with an id, 0 where there is none.
fn quality_of(bank: &[u8], id: u32) -> u16
    requires { records_in (length bank.now) ≤ max_catalog_models }
    ensures { result ≡ quality_of (first_listed id (listed_of bank.now)) }
{
    let Some(place) = first_listed(bank, id) else {
        return 0;
    };
    model_at(bank, usize::from(place)).quality_bps
}

// What a model is told.
fn verdict_on(policy: PolicySnapshot, input: KernelInput, model: KernelModel) -> CandidateVerdict
    ensures { told_verdict result ≡ verdict_of policy input model }
{
    verdict_alone(pricing_for(policy, input), input, model)
}

// That the requested model isn't listed, where it isn't.
fn put_requested(out: &mut [u8], at: usize, bank: &[u8], id: u32) -> usize
    requires at_in_bounds { at + 60 ≤ length out.old }
    requires bank_bound { records_in (length bank.now) ≤ max_catalog_models }
    ensures out_after { some (result, out.new) ≡ placed out.old at (requested_words id (first_listed id (listed_of bank.now))) }
    ensures upper_bound { result ≤ at + 60 }
{
    match first_listed(bank, id) {
        Some(_) => at,
        None => put_remark(
            out,
            at,
            b"The requested model ",
            u64::from(id),
            b" is not listed.",
        ),
    }
}

// The request is stopped.
fn put_stopped(out: &mut [u8], at: usize) -> usize
    requires { at + 920 ≤ length out.old }
    ensures { some (result, out.new) ≡ placed out.old at stopped_words }
{
    let next = put_sentence(out, at, b"No change to a model would help.");
    put_unsearched(out, next, b"the request is stopped")
}

// The model is chosen already.
fn put_already(out: &mut [u8], at: usize, id: u32) -> usize
    requires { at + 920 ≤ length out.old }
    ensures { some (result, out.new) ≡ placed out.old at (already_words id) }
{
    let next = put_remark(out, at, b"Model ", u64::from(id), b" is chosen already.");
    put_unsearched(out, next, b"the model is chosen already")
}

// Why a model was not chosen, beside the chosen model's quality, and what would make it the choice.
fn put_unchosen(
    out: &mut [u8],
    at: usize,
    model: KernelModel,
    verdict: CandidateVerdict,
    asked: Boundaries,
    highest: u16,
) -> usize
    requires { at + 920 ≤ length out.old }
    ensures { some (result, out.new) ≡ placed out.old at (standing_words model.model_id (told_verdict verdict) model.quality_bps (told_decision asked.decision) highest ++ searched_words (eqb model.enabled 0) (told_boundaries asked)) }
{
    let next = put_standing(
        out,
        at,
        model.model_id,
        verdict,
        model.quality_bps,
        asked.decision,
        highest,
    );
    put_searched(out, next, asked, model.enabled == 0)
}

// What became of a model of a bank, and what would make it the choice.
fn put_model(
    out: &mut [u8],
    at: usize,
    policy: PolicySnapshot,
    input: KernelInput,
    bank: &[u8],
    model: KernelModel,
    asked: Boundaries,
) -> usize
    requires at_in_bounds { at + 920 ≤ length out.old }
    requires bank_bound { records_in (length bank.now) ≤ max_catalog_models }
    ensures { some (result, out.new) ≡ placed out.old at (model_words policy input (listed_of bank.now) model.model_id model (told_boundaries asked)) }
{
    let decision = asked.decision;
    if asked.blocked_by_request {
        return put_stopped(out, at);
    }
    if selected(decision, model.model_id) {
        return put_already(out, at, model.model_id);
    }
    let verdict = verdict_on(policy, input, model);
    let highest = quality_of(bank, decision.selected_model_id);
    put_unchosen(out, at, model, verdict, asked, highest)
}

// The same of the model with an id, where it is listed.
fn put_listed(
    out: &mut [u8],
    at: usize,
    policy: PolicySnapshot,
    input: KernelInput,
    bank: &[u8],
    id: u32,
    asked: Boundaries,
) -> usize
    requires at_in_bounds { at + 920 ≤ length out.old }
    requires bank_bound { records_in (length bank.now) ≤ max_catalog_models }
    ensures { some (result, out.new) ≡ placed out.old at (listed_words policy input (listed_of bank.now) id (first_listed id (listed_of bank.now)) (told_boundaries asked)) }
{
    let Some(place) = first_listed(bank, id) else {
        return at;
    };
    let model = model_at(bank, usize::from(place));
    put_model(out, at, policy, input, bank, model, asked)
}

// The choice, the requested model where it isn't listed, and the model asked about.
fn put_report(
    out: &mut [u8],
    policy: PolicySnapshot,
    input: KernelInput,
    bank: &[u8],
    id: u32,
    asked: Boundaries,
) -> usize
    requires words_bytes_in_bounds { words_bytes ≤ length out.old }
    requires bank_bound { records_in (length bank.now) ≤ max_catalog_models }
    ensures { some (result, out.new) ≡ placed out.old 0 (words_report policy input (listed_of bank.now) id (told_boundaries asked)) }
{
    let chosen = put_choice(out, 0, policy, input, asked.decision);
    let next = put_requested(out, chosen, bank, input.requested_model_id);
    put_listed(out, next, policy, input, bank, id, asked)
}

// The whole answer.
fn put_answer(out: &mut [u8], input: &[u8], id: u32) -> usize
    requires { words_bytes ≤ length out.old }
    ensures { some (result, out.new) ≡ placed out.old 0 (ask_words id input.now) }
{
    match asked(input, id) {
        Ok(asked) => put_report(
            out,
            policy_in(input),
            request_in(input),
            bank_in(input),
            id,
            asked,
        ),
        Err(refusal) => put_refused_words(out, id, refusal),
    }
}

// What `ask ID words` prints for an input, at the start of a buffer, whose other bytes stay. Bad input, or an id that isn't listed, gets
// the line of its refusal and a sentence about it. Refused, with nothing written: 4.
pub fn ask_words(input: &[u8], id: u32, out: &mut [u8]) -> Result<usize, Refusal>
    ensures { (told_written result ≡ print_of (ask_words id input.now) (length out.old)) × (out.new ≡ print_buffer (ask_words id input.now) out.old) × (length (ask_words id input.now) ≤ words_bytes) }
{
    let mut space = [0u8; WORDS_BYTES];
    let end = put_answer(&mut space, input, id);
    deliver(&space[..end], out)
}
