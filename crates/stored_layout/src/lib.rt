// For other crates: a form, which is fields one after the other: whether it is whole, what stands in it once it is, and a field as it is
// written.
#![tactic(auto)]

ghost use Rattle.std.specs.Prelude.{◌≡◌, ◌+◌, ◌≤◌, length, []};
ghost use Rattle.rules.specs.Refused.{first_fault, told_outcome};
ghost use Rattle.rules.specs.Limits.{field_header_bytes};
ghost use Rattle.rules.specs.Stored.{field_bytes, body_of, after_of, left_out, due_faults, after_due, form_faults};
ghost use Rattle.rules.specs.Stored.{rounding_from, allowance_from, after_catalogue, after_rounding, stored_policy};
ghost use Rattle.std.proofs.Math.Option.{some};
ghost use Rattle.splice.specs.Placed.{placed};
ghost use Rattle.stored_fields.specs.Fields.{told_field};
ghost use Rattle.stored_layout.specs.Layout.{due_of, Whole, Opening};

use endian::{u16_at, u32_at};
use rules::limits::FIELD_HEADER_BYTES;
use rules::{PolicySnapshot, Refusal, Rounding};
use splice::put_bytes;
use stored_fields::{ALLOWANCE_TAG, ROUNDING_TAG, front_field};
use unpacking_policy::policy_with;

// Whether a tag that may be left out at the front of some bytes is: tag 4 or 5, where no such byte stands there.
fn is_left_out(form: &[u8], tag: u8) -> bool
    ensures { result ≡ left_out tag form.now }
{
    (tag == ROUNDING_TAG || tag == ALLOWANCE_TAG) && (form.is_empty() || form[0] != tag)
}

// How many bytes the field with a tag at the front of some bytes has; none where it may be left out and is.
fn due_field(form: &[u8], tag: u8) -> Result<usize, Refusal>
    ensures { told_field result ≡ due_of tag form.now }
{
    if is_left_out(form, tag) {
        return Ok(0);
    }
    front_field(form, tag)
}

// Whether fields with these tags stand one after the other, then the end, and if not, why: at each field in its turn 20 for a cut
// header, 21, 22, 20 for a cut body, and 23 or 25; then 21 for any byte after the last one. Tags 4 and 5 may be left out.
pub fn lay_out(form: &[u8], tags: &[u8]) -> Result<(), Refusal>
    ensures { told_outcome result ≡ first_fault (form_faults tags.now form.now) }
{
    let mut rest = form;
    for tag in tags {
        let n = due_field(rest, *tag)?;
        rest = &rest[n..];
    }
    if !rest.is_empty() {
        return Err(Refusal::WrongTag);
    }
    Ok(())
}

// The body of the whole field at the front of some bytes, as that very part of them.
pub fn front_body(form: &[u8]) -> &[u8]
    requires { Whole form.now }
    ensures { result.now ≡ body_of form.now }
{
    let end = FIELD_HEADER_BYTES + usize::from(u16_at(form, 1));
    &form[FIELD_HEADER_BYTES..end]
}

// What stands after that field.
pub fn after_front(form: &[u8]) -> &[u8]
    requires { Whole form.now }
    ensures { result.now ≡ after_of form.now }
{
    let end = FIELD_HEADER_BYTES + usize::from(u16_at(form, 1));
    &form[end..]
}

// What stands after the field with a tag, which may be left out.
fn after_due(form: &[u8], tag: u8) -> &[u8]
    requires { due_faults tag form.now ≡ [] }
    ensures { result.now ≡ after_due tag form.now }
{
    if is_left_out(form, tag) {
        return form;
    }
    after_front(form)
}

// How a policy rounds, by what stands after its catalogue: once where tag 4 begins there.
fn rounding_in(rest: &[u8]) -> Rounding
    ensures { result ≡ rounding_from rest.now }
{
    if is_left_out(rest, ROUNDING_TAG) {
        return Rounding::Apart;
    }
    Rounding::Once
}

// A policy's allowance, by what stands after tag 4, or where it would: tag 5's body, 0 where it is left out.
fn allowance_in(rest: &[u8]) -> u32
    requires { due_faults 5 rest.now ≡ [] }
    ensures { result ≡ allowance_from rest.now }
{
    if is_left_out(rest, ALLOWANCE_TAG) {
        return 0;
    }
    u32_at(rest, FIELD_HEADER_BYTES)
}

// What stands after a form's catalogue.
fn after_catalogue(form: &[u8]) -> &[u8]
    requires { Opening form.now }
    ensures { result.now ≡ after_catalogue form.now }
{
    after_front(after_front(form))
}

// The policy at the front of a form: tag 1, then tags 4 and 5 after the catalogue.
pub fn policy_in(form: &[u8]) -> PolicySnapshot
    requires { Opening form.now }
    ensures { result ≡ stored_policy form.now }
{
    let rest = after_catalogue(form);
    let rounding = rounding_in(rest);
    let allowance = allowance_in(after_due(rest, ROUNDING_TAG));
    policy_with(rounding, allowance, front_body(form))
}

// What stands after the policy and its bank.
pub fn after_opening(form: &[u8]) -> &[u8]
    requires { Opening form.now }
    ensures { result.now ≡ after_due 5 (after_rounding form.now) }
{
    after_due(
        after_due(after_catalogue(form), ROUNDING_TAG),
        ALLOWANCE_TAG,
    )
}

// Puts a field into a buffer from a position on, and answers the position after it.
pub fn put_field(out: &mut [u8], at: usize, tag: u8, body: &[u8]) -> usize
    requires { at + (field_header_bytes + length body.now) ≤ length out.old }
    ensures { some (result, out.new) ≡ placed out.old at (field_bytes tag body.now) }
{
    // Of the length there are two bytes, the lowest first.
    let [low, high] = ((body.len() % 65_536) as u16).to_le_bytes();
    put_bytes(out, at, &[tag, low, high]);
    let next = at + FIELD_HEADER_BYTES;
    put_bytes(out, next, body);
    next + body.len()
}
