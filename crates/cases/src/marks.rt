// A buffer is filled with a mark before a call, so that a byte that the call must leave alone is seen to be left alone. What the call answers
// is told as a number of bytes, or as a refusal's number.
pub(crate) const MARK: u8 = 0xa7;

// Whether a buffer begins with some bytes and has the mark everywhere else.
fn begins(buffer: &[u8], start: &[u8]) -> bool {
    buffer.starts_with(start) && buffer[start.len()..].iter().all(|&byte| byte == MARK)
}

// What is to be told: a refusal's number, or 4 where there is too little room, or else the size.
// By number: as in the documents' tables, 0 stands for an answer.
pub(crate) fn owed(number: u8, size: usize, room: usize) -> Result<usize, u8> {
    if number != 0 {
        return Err(number);
    }
    if room < size {
        return Err(4);
    }
    Ok(size)
}

// Whether a call that had so much room told what it must, with the bytes at the start of its buffer, or with none changed where it refused.
pub(crate) fn settled(
    told: Result<usize, u8>,
    number: u8,
    buffer: &[u8],
    bytes: &[u8],
    room: usize,
) -> bool {
    let start = if told.is_ok() { bytes } else { b"" };
    told == owed(number, bytes.len(), room) && begins(buffer, start)
}
