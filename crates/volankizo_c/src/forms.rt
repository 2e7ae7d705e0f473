// A record's offset, stored and request forms, and printed texts.

ghost use Rattle.std.specs.Prelude.{◌≡◌};
ghost use Rattle.rules.specs.Printed.{unit_text, ask_text};
ghost use Rattle.rules.specs.Words.{ask_words};
ghost use Rattle.export_form_parts.specs.Parts.{read_stored_call, read_request_call};
ghost use Rattle.export_forms.specs.Forms.{record_at_call, write_stored_call, write_request_call};
ghost use Rattle.export_texts.specs.Texts.{text_call};

#[unsafe(no_mangle)]
pub extern "C" fn volankizo_record_at(bank: &[u8], place: u64, out: &mut [u8]) -> u64
    ensures { (result, out.new) ≡ record_at_call bank.now place out.old }
{
    volankizo::volankizo_record_at(bank, place, out)
}

#[unsafe(no_mangle)]
pub extern "C" fn volankizo_write_stored(policy: &[u8], bank: &[u8], out: &mut [u8]) -> u64
    ensures { (result, out.new) ≡ write_stored_call policy.now bank.now out.old }
{
    volankizo::volankizo_write_stored(policy, bank, out)
}

#[unsafe(no_mangle)]
pub extern "C" fn volankizo_read_stored(form: &[u8], bank: &mut [u8], out: &mut [u8]) -> u64
    ensures { ((result, out.new), bank.new) ≡ read_stored_call form.now bank.old out.old }
{
    volankizo::volankizo_read_stored(form, bank, out)
}

#[unsafe(no_mangle)]
pub extern "C" fn volankizo_write_request(request: &[u8], out: &mut [u8]) -> u64
    ensures { (result, out.new) ≡ write_request_call request.now out.old }
{
    volankizo::volankizo_write_request(request, out)
}

#[unsafe(no_mangle)]
pub extern "C" fn volankizo_read_request(form: &[u8], out: &mut [u8]) -> u64
    ensures { (result, out.new) ≡ read_request_call form.now out.old }
{
    volankizo::volankizo_read_request(form, out)
}

#[unsafe(no_mangle)]
pub extern "C" fn volankizo_unit_text(input: &[u8], out: &mut [u8]) -> u64
    ensures { (result, out.new) ≡ text_call (unit_text input.now) out.old }
{
    volankizo::volankizo_unit_text(input, out)
}

#[unsafe(no_mangle)]
pub extern "C" fn volankizo_ask_text(input: &[u8], id: u32, out: &mut [u8]) -> u64
    ensures { (result, out.new) ≡ text_call (ask_text id input.now) out.old }
{
    volankizo::volankizo_ask_text(input, id, out)
}

#[unsafe(no_mangle)]
pub extern "C" fn volankizo_ask_words(input: &[u8], id: u32, out: &mut [u8]) -> u64
    ensures { (result, out.new) ≡ text_call (ask_words id input.now) out.old }
{
    volankizo::volankizo_ask_words(input, id, out)
}
