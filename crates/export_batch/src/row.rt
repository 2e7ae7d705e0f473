// A row of requests read and a row of decisions written, both in bytes.
ghost use Rattle.std.specs.Prelude.{◌≡◌, ◌+◌, ◌*◌, ◌≤◌, length};
ghost use Rattle.rules.specs.Limits.{request_bytes};
ghost use Rattle.rules.specs.Bytes.{filled};
ghost use Rattle.rules.specs.Batch.{decisions_of};
ghost use Rattle.live_slots.specs.Among.{among_of, Among};
ghost use Rattle.export_decision_bytes.specs.Layout.{uncounted_size};
ghost use Rattle.export_batch.specs.Batches.{request_at, requests_from, row_bytes};

use bank::unchecked::input_of;
use export_decision_bytes::{UNCOUNTED_BYTES, uncounted_bytes};
use kernel_among::among::decision_among;
use rules::limits::REQUEST_BYTES;
use rules::{KernelInput, PolicySnapshot};
use splice::put_bytes;

// The request at a place of a row.
pub fn input_at(requests: &[u8], place: usize) -> KernelInput
    requires { request_bytes * place + request_bytes ≤ length requests.now }
    ensures { result ≡ request_at requests.now place }
{
    let start = REQUEST_BYTES * place;
    input_of(&requests[start..start + REQUEST_BYTES])
}

// The decision on each of so many requests, over so many records, from the start of `out` on.
pub fn put_decisions(
    policy: PolicySnapshot,
    requests: &[u8],
    count: usize,
    bank: &[u8],
    many: u16,
    out: &mut [u8],
)
    requires { Among many bank.now × (request_bytes * count ≤ length requests.now) × (uncounted_size * count ≤ length out.old) }
    ensures { out.new ≡ filled (row_bytes (decisions_of policy (among_of many bank.now)
        (requests_from requests.now 0 count))) out.old }
{
    for i in 0..count {
        let decision = decision_among(policy, bank, input_at(requests, i), many);
        put_bytes(out, UNCOUNTED_BYTES * i, &uncounted_bytes(decision));
    }
}
