// For other crates: a field, which is a tag in one byte, the length of the body in two, the body. One is looked for at the front of some bytes,
// and answered once it is seen to be whole there.
#![tactic(auto)]

ghost use Rattle.std.specs.Prelude.{◌≡◌};
ghost use Rattle.rules.specs.Refused.{first_fault, told_outcome};
ghost use Rattle.rules.specs.Stored.{fits as fits_tag, body_of, body_faults};
ghost use Rattle.stored_fields.specs.Fields.{told_field, field_of, Headed, Bodied};

use endian::{u16_at, u32_at};
use rules::Refusal;
use rules::limits::{
    FIELD_HEADER_BYTES, MAX_STORED_MODELS, POLICY_BYTES, STORED_RECORD_BYTES, STORED_REQUEST_BYTES,
};

// A tag is a byte, not an enum: any may stand where one is looked for.
pub const POLICY_TAG: u8 = 1;

pub const BANK_TAG: u8 = 2;

pub const REQUEST_TAG: u8 = 3;

pub const ROUNDING_TAG: u8 = 4;

pub const ALLOWANCE_TAG: u8 = 5;

// Tag 4's body: one byte, which says that the policy rounds once. Nothing else is said by it, since apart is said by its absence.
pub const ROUNDING_BYTES: usize = 1;

pub const ROUNDING_ONCE: u8 = 1;

// Tag 5's body: an allowance above 0, since none is said by its absence.
pub const ALLOWANCE_BYTES: usize = 4;

// Whether a tag's body may have so many bytes.
#[tactic(auto, unfolding(rules::specs::Stored::fits, rules::specs::Choice::equal))]
fn fits(tag: u8, n: usize) -> bool
    ensures { result ≡ fits_tag tag n }
{
    match tag {
        POLICY_TAG => n == POLICY_BYTES,
        BANK_TAG => n % STORED_RECORD_BYTES == 0 && n / STORED_RECORD_BYTES <= MAX_STORED_MODELS,
        REQUEST_TAG => n == STORED_REQUEST_BYTES,
        ROUNDING_TAG => n == ROUNDING_BYTES,
        ALLOWANCE_TAG => n == ALLOWANCE_BYTES,
        _ => false,
    }
}

// What the body of a whole field is refused for: tag 4's 23 where it isn't 1, tag 5's 25 where it is 0.
fn body_outcome(form: &[u8], tag: u8) -> Result<(), Refusal>
    requires { Bodied tag form.now }
    ensures { told_outcome result ≡ first_fault (body_faults tag (body_of form.now)) }
{
    if tag == ROUNDING_TAG && form[FIELD_HEADER_BYTES] != ROUNDING_ONCE {
        return Err(Refusal::UnknownRounding);
    }
    if tag == ALLOWANCE_TAG && u32_at(form, FIELD_HEADER_BYTES) == 0 {
        return Err(Refusal::ZeroAllowance);
    }
    Ok(())
}

// How many bytes the field at the front of some bytes has, its header's among them, once its header with the tag stands there. Refused: 22 for
// a length that the tag doesn't have, 20 for a cut body, 23 and 25 for a body that it doesn't have.
fn headed_field(form: &[u8], tag: u8) -> Result<usize, Refusal>
    requires { Headed tag form.now }
    ensures { told_field result ≡ field_of tag form.now }
{
    let n = usize::from(u16_at(form, 1));
    let size = FIELD_HEADER_BYTES + n;
    if !fits(tag, n) {
        return Err(Refusal::WrongLength);
    }
    if form.len() < size {
        return Err(Refusal::CutShort);
    }
    body_outcome(form, tag)?;
    Ok(size)
}

// How many bytes the field with a tag at the front of some bytes has. Refused: 21 where no byte stands there, 20 for a cut header, 21 for
// another tag, then 22, 20, 23, 25.
pub fn front_field(form: &[u8], tag: u8) -> Result<usize, Refusal>
    ensures { told_field result ≡ field_of tag form.now }
{
    if form.is_empty() {
        return Err(Refusal::WrongTag);
    }
    if form.len() < FIELD_HEADER_BYTES {
        return Err(Refusal::CutShort);
    }
    if form[0] != tag {
        return Err(Refusal::WrongTag);
    }
    headed_field(form, tag)
}
