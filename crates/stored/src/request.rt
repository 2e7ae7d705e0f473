// The request form: tag 3, the end.
ghost use Rattle.std.specs.Prelude.{◌≡◌, length};
ghost use Rattle.rules.specs.Numbers.{told_request, told_written};
ghost use Rattle.rules.specs.Stored.{write_request_of, write_request_buffer, read_request_of};

use bank::unchecked::input_of;
use packing::input_bytes;
use rules::limits::{FIELD_HEADER_BYTES, STORED_REQUEST_BYTES};
use rules::{KernelInput, Refusal};
use stored_fields::REQUEST_TAG;
use stored_layout::{front_body, lay_out, put_field};

// Writes a request to the start of a buffer, whose other bytes stay. Refused: 4.
pub fn write_request(input: KernelInput, out: &mut [u8]) -> Result<usize, Refusal>
    ensures { (told_written result ≡ write_request_of input (length out.old)) × (out.new ≡ write_request_buffer input out.old) }
{
    if out.len() < FIELD_HEADER_BYTES + STORED_REQUEST_BYTES {
        return Err(Refusal::NoRoom);
    }
    Ok(put_field(out, 0, REQUEST_TAG, &input_bytes(input)))
}

// Reads a request. Refused: 20 to 22.
pub fn read_request(form: &[u8]) -> Result<KernelInput, Refusal>
    ensures { told_request result ≡ read_request_of form.now }
{
    lay_out(form, &[REQUEST_TAG])?;
    Ok(input_of(front_body(form)))
}
