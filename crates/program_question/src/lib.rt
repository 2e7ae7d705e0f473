// For `ask`: what the arguments of the question from the desk ask. `question_of` asks nothing of its caller.
#![tactic(auto)]

ghost use Rattle.std.specs.Prelude.{◌≡◌, MatchOption, None, Some};
ghost use Rattle.program_question.specs.DeskQuestion.{about_of, question_of};
ghost use Rattle.program_question.specs.declared.DeskQuestion.TheVariants.{Lines};

#[derive(Clone, Copy)]
pub enum DeskQuestion {
    // An id alone.
    Lines(u32),
    // An id and `words`.
    Words(u32),
}

// The id that decimal digits say; none where some byte is no digit, there is none, or no id is so high.
fn id_of(text: &[u8]) -> Option<u32>
    ensures { MatchOption result (about_of text.now ≡ None) (λ id. about_of text.now ≡ Some (Lines id)) }
{
    if text.is_empty() {
        return None;
    }
    let mut id: u32 = 0;
    for byte in text {
        if !byte.is_ascii_digit() {
            return None;
        }
        id = id.checked_mul(10)?.checked_add(u32::from(*byte - b'0'))?;
    }
    Some(id)
}

// What so many arguments ask, the program's name counted among them, of which these are the two after it; none where that is unclear.
pub fn question_of(count: usize, first: &[u8], second: &[u8]) -> Option<DeskQuestion>
    ensures { result ≡ question_of count first.now second.now }
{
    let id = id_of(first)?;
    if count == 2 {
        return Some(DeskQuestion::Lines(id));
    }
    if count == 3 && second == b"words".as_slice() {
        return Some(DeskQuestion::Words(id));
    }
    None
}
