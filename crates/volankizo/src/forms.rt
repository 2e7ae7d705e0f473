// The exported functions that hand over something else than decisions: a record's offset, stored and request forms, printed texts.
ghost use Rattle.std.specs.Prelude.{◌≡◌};
ghost use Rattle.rules.specs.Printed.{unit_text, ask_text};
ghost use Rattle.rules.specs.Words.{ask_words};
ghost use Rattle.export_form_parts.specs.Parts.{read_stored_call, read_request_call};
ghost use Rattle.export_forms.specs.Forms.{record_at_call, write_stored_call, write_request_call};
ghost use Rattle.export_texts.specs.Texts.{text_call};

use export_form_parts::{request_delivered, stored_delivered};
use export_forms::{offset_delivered, request_form_delivered, stored_form_delivered};
use export_texts::{ask_text_delivered, ask_words_delivered, unit_text_delivered};

// Where the record at a place begins. `bank` is whole records, `out` has room for 8. Refused: 1, 2, 4, then 8 where the place is beyond the
// bank. Written: 8 bytes, the offset as a u64; the record is the 47 bytes there.
pub fn volankizo_record_at(bank: &[u8], place: u64, out: &mut [u8]) -> u64
    ensures { (result, out.new) ≡ record_at_call bank.now place out.old }
{
    offset_delivered(bank, place, out)
}

// The stored form of a policy with its bank. `policy` is 30, 31 or 35 bytes, `bank` whole records, `out` has room for 36 bytes more than the
// bank, 4 more where the policy rounds once, and 7 more where it has an allowance. Refused: 22, 23, 1, 2, 18, 4. Written, each with its tag u8 and
// its length u16 before it: the policy's first 30 bytes, tag 1; the bank, tag 2; where it rounds once, a byte 1, tag 4; where it has an allowance,
// that as a u32, tag 5.
pub fn volankizo_write_stored(policy: &[u8], bank: &[u8], out: &mut [u8]) -> u64
    ensures { (result, out.new) ≡ write_stored_call policy.now bank.now out.old }
{
    stored_form_delivered(policy, bank, out)
}

// A stored form taken apart. `form` is any bytes, `bank` has room for its models, `out` for 43. Refused, with neither written: 20 to 23 and 25 at
// each field in its turn, then 4 for `bank` or `out`. Written: `bank`, the models' bytes; `out`, by offset: 0 the policy, 35 bytes; 35 the
// length of the bank in bytes u64.
pub fn volankizo_read_stored(form: &[u8], bank: &mut [u8], out: &mut [u8]) -> u64
    ensures { ((result, out.new), bank.new) ≡ read_stored_call form.now bank.old out.old }
{
    stored_delivered(form, bank, out)
}

// The request form. `request` is 70 bytes, `out` has room for 73. Refused: 22, 4. Written: the request, with its tag 3 u8 and its length
// u16 before it.
pub fn volankizo_write_request(request: &[u8], out: &mut [u8]) -> u64
    ensures { (result, out.new) ≡ write_request_call request.now out.old }
{
    request_form_delivered(request, out)
}

// The request that a request form holds. `form` is any bytes, `out` has room for 70. Refused: 20 to 22, then 4. Written: the request, 70 bytes.
pub fn volankizo_read_request(form: &[u8], out: &mut [u8]) -> u64
    ensures { (result, out.new) ≡ read_request_call form.now out.old }
{
    request_delivered(form, out)
}

// What the unit's program prints for an input; bad input gets the line of its refusal. `input` is any bytes, `out` has room for 8 bytes more
// than the text, of which 848 always suffice. Refused: 4. Written, by offset: 0 the text's length in bytes u64; 8 the text.
pub fn volankizo_unit_text(input: &[u8], out: &mut [u8]) -> u64
    ensures { (result, out.new) ≡ text_call (unit_text input.now) out.old }
{
    unit_text_delivered(input, out)
}

// What would make a model win, as `ask ID` prints it. `out`: 678 bytes always suffice. Refused and written as above.
pub fn volankizo_ask_text(input: &[u8], id: u32, out: &mut [u8]) -> u64
    ensures { (result, out.new) ≡ text_call (ask_text id input.now) out.old }
{
    ask_text_delivered(input, id, out)
}

// The same in words, as `ask ID words` prints it. `out`: 1208 bytes always suffice. Refused and written as above.
pub fn volankizo_ask_words(input: &[u8], id: u32, out: &mut [u8]) -> u64
    ensures { (result, out.new) ≡ text_call (ask_words id input.now) out.old }
{
    ask_words_delivered(input, id, out)
}
