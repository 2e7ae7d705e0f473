// Whether a call refuses an input as it must: with the line of a number, and from the desk with a sentence under it.
use crate::answers::{WORDS, answers_each, says};

// The line of a refusal, of one digit or two.
fn prints_line(call: u8, input: &[u8], id: u32, number: u8) -> bool {
    let tens = b'0' + number / 10;
    let ones = b'0' + number % 10;
    if number < 10 {
        let line = [b'r', b'e', b'f', b'u', b's', b'e', b'd', b' ', ones, b'\n'];
        return answers_each(call, input, id, &line);
    }
    let line = [
        b'r', b'e', b'f', b'u', b's', b'e', b'd', b' ', tens, ones, b'\n',
    ];
    answers_each(call, input, id, &line)
}

// 3: a field of the request, of three.
fn names_request(input: &[u8], id: u32, variant: u8) -> bool {
    match variant {
        0 => says(
            input,
            id,
            b"refused 3\nThe request's risk is 10001 basis points; at most 10000 are allowed.\n",
        ),
        1 => says(
            input,
            id,
            b"refused 3\nThe request's confidence is 10001 basis points; at most 10000 are allowed.\n",
        ),
        _ => says(
            input,
            id,
            b"refused 3\nThe request's minimum quality is 10001 basis points; at most 10000 are allowed.\n",
        ),
    }
}

// 10: a limit of the policy, of three.
fn names_policy(input: &[u8], id: u32, variant: u8) -> bool {
    match variant {
        0 => says(
            input,
            id,
            b"refused 10\nThe policy's hard risk limit is 10001 basis points; at most 10000 are allowed.\n",
        ),
        1 => says(
            input,
            id,
            b"refused 10\nThe policy's minimum confidence is 10001 basis points; at most 10000 are allowed.\n",
        ),
        _ => says(
            input,
            id,
            b"refused 10\nThe policy's risk multiplier is 50001 basis points; at most 50000 are allowed.\n",
        ),
    }
}

// 13: the first model's provider, or the second one's.
fn names_provider(input: &[u8], id: u32, variant: u8) -> bool {
    if variant == 0 {
        return says(
            input,
            id,
            b"refused 13\nModel 1 has provider 64; providers go from 0 to 63.\n",
        );
    }
    says(
        input,
        id,
        b"refused 13\nModel 2 has provider 64; providers go from 0 to 63.\n",
    )
}

// 14: the first model's quality and ceiling, and the second one's.
fn names_range(input: &[u8], id: u32, variant: u8) -> bool {
    match variant {
        0 => says(
            input,
            id,
            b"refused 14\nModel 1 has a quality of 10001 basis points; at most 10000 are allowed.\n",
        ),
        1 => says(
            input,
            id,
            b"refused 14\nModel 1 has a risk ceiling of 10001 basis points; at most 10000 are allowed.\n",
        ),
        2 => says(
            input,
            id,
            b"refused 14\nModel 2 has a quality of 10001 basis points; at most 10000 are allowed.\n",
        ),
        _ => says(
            input,
            id,
            b"refused 14\nModel 2 has a risk ceiling of 10001 basis points; at most 10000 are allowed.\n",
        ),
    }
}

// The list of models: none, one twice, all off, too many, or not the one asked about.
fn names_list(input: &[u8], id: u32, number: u8) -> bool {
    match number {
        11 => says(input, id, b"refused 11\nNo model is listed.\n"),
        12 => says(
            input,
            id,
            b"refused 12\nModel 1 is listed more than once.\n",
        ),
        15 => says(input, id, b"refused 15\nEvery model is switched off.\n"),
        19 => says(input, id, b"refused 19\nMore than 900 models are listed.\n"),
        _ => says(input, id, b"refused 5\nModel 77777 is not listed.\n"),
    }
}

// The input's fields.
fn names_form(input: &[u8], id: u32, number: u8) -> bool {
    match number {
        20 => says(input, id, b"refused 20\nThe input ends within a field.\n"),
        21 => says(
            input,
            id,
            b"refused 21\nA field of the input is missing, out of its order, or one too many.\n",
        ),
        22 => says(
            input,
            id,
            b"refused 22\nA field of the input has a length that its tag does not have.\n",
        ),
        23 => says(
            input,
            id,
            b"refused 23\nThe input's rounding, under tag 4, is not 1.\n",
        ),
        _ => says(
            input,
            id,
            b"refused 25\nThe input's latency allowance, under tag 5, is 0.\n",
        ),
    }
}

// What the desk says. A number that carries values stands for several inputs, which its variants tell apart.
fn names_fault(input: &[u8], id: u32, number: u8, variant: u8) -> bool {
    match number {
        3 => names_request(input, id, variant),
        10 => names_policy(input, id, variant),
        13 => names_provider(input, id, variant),
        14 => names_range(input, id, variant),
        20..=25 => names_form(input, id, number),
        _ => names_list(input, id, number),
    }
}

// Whether a call refuses.
pub(crate) fn refuses(call: u8, input: &[u8], id: u32, number: u8, variant: u8) -> bool {
    if call == WORDS {
        return names_fault(input, id, number, variant);
    }
    prints_line(call, input, id, number)
}
