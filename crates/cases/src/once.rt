// The worked example with a policy that rounds once: the field of tag 4, which stands between the models and the request, and what is printed.
ghost use Rattle.std.specs.Prelude.{◌≡◌, ◌+◌, ◌≤◌, length};

use crate::answers::EACH_ROOM;
use crate::banks::put_part;
use crate::example::{AFTER_BANK, END};
use crate::texts::told;
use splice::put_bytes;

// Where the request's field begins, and the end.
pub(crate) const AFTER_ROUNDING: usize = 134;

pub(crate) const ONCE_END: usize = 207;

// Puts a field of tag 4 at a place, and answers the place after it.
pub(crate) fn put_rounding(out: &mut [u8], at: usize) -> usize
    requires { at + 4 ≤ length out.old }
    ensures { result ≡ at + 4 }
{
    put_bytes(out, at, b"\x04\x01\0\x01");
    at + 4
}

// Puts the example's input with a policy that rounds once.
pub(crate) fn put_once(out: &mut [u8])
    requires { 207 ≤ length out.old }
{
    put_part(out, 0, 0, AFTER_BANK);
    put_rounding(out, AFTER_BANK);
    put_part(out, AFTER_ROUNDING, AFTER_BANK, END);
}

// The texts of the example, rounding once: model 1 wins up to a cost of 799, and model 2 is chosen up to one of 1,300.
pub(crate) fn is_once(call: u8, input: &[u8]) -> bool {
    told(
        call,
        input,
        1,
        b"decision 42 2 2 2 1 300 6200 1 5200 2 2 7 3\n\
            rejected 0 0 0 0 0 0 0 0 0\n\
            lever 1 8000 7000 -\n\
            lever 2 50 150 -\n\
            lever 3 1000000 4333333 1300\n\
            lever 4 8000 1000 -\n",
        b"decision 42 2 2 2 1 300 6200 1 5200 2 2 7 3\n\
            lever 3 1000000 443888 799\n\
            passes 26\n",
        b"Chosen: model 2, at a cost of 300 microunits, with a utility of 6200 microunits.\n\
            Model 1 is outranked by model 2: its utility of 5200 microunits is below 6200.\n\
            Price alone: it must fall by 55.7 percent or more; exactly, by 55.6112 percent, to 44.3888 percent of today's, where the request costs 799 microunits.\n",
        EACH_ROOM,
    )
}
