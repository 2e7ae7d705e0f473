// A reader that is fed a form in parts.
use crate::refusal::Refusal;

// Where a reader stands in a field.
#[derive(Clone, Copy)]
pub enum Within {
    // At its front.
    Front,
    // After its tag.
    Tagged(u8),
    // After its tag and the lower byte of its length.
    Sized(u8, u8),
    // In its body, with so many bytes to come, and whether those that came are no body of its tag yet.
    Body(u16, bool),
    // The form is refused, whatever comes.
    Broken(Refusal),
}

// What is known of a form from the bytes so far.
#[derive(Clone, Copy)]
pub struct Reader {
    pub within: Within,
    // The tag of the field that it is in, or was in last; 0 before the first.
    pub tag: u8,
    // Whether that field has as many models as one can.
    pub full: bool,
    // Whether two fields of models stand side by side that 26 is for.
    pub uneven: bool,
    // The bytes of models, counted to one model above the most.
    pub size: u32,
}
