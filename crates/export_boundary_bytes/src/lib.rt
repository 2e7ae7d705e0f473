// For the library: what `what_would_win` and `decision_margin` tell, in bytes: the decision, the model, and four rooms for levers.
// `boundary_bytes` asks nothing of its caller.
#![tactic(auto)]

ghost use Rattle.std.specs.Prelude.{◌≡◌, ◌++◌, replicate};
ghost use Rattle.rules.specs.Bytes.{filled};
ghost use Rattle.rules.specs.Numbers.{told_entry, told_boundaries};
ghost use Rattle.export_decision_bytes.specs.Layout.{uncounted_bytes};
ghost use Rattle.export_boundary_bytes.specs.Layout.{lever_bytes, head_bytes, boundary_size, boundary_bytes};

use export_decision_bytes::{UNCOUNTED_BYTES, uncounted_bytes};
use packing::unchecked::put_packed;
use rules::{Boundaries, Requirement};
use splice::put_bytes;

// A lever's bytes, those before the levers and after the decision, and the whole answer's.
const LEVER_BYTES: usize = 26;

const HEAD_BYTES: usize = 14;

pub const BOUNDARY_BYTES: usize = 183;

// Where the rooms begin.
const ROOMS_START: usize = UNCOUNTED_BYTES + HEAD_BYTES;

pub type LeverBytes = [u8; LEVER_BYTES];

pub type HeadBytes = [u8; HEAD_BYTES];

pub type BoundaryBytes = [u8; BOUNDARY_BYTES];

// A lever in its room. A cost that isn't carried is 0.
fn lever_bytes(requirement: Requirement) -> LeverBytes
    ensures { result ≡ lever_bytes (told_entry requirement) }
{
    let cost = requirement.cost_at_boundary_microunits;
    let mut a = [0; LEVER_BYTES];
    put_packed(
        &mut a,
        &[
            (1, u64::from(requirement.lever)),
            (8, requirement.current),
            (8, requirement.boundary),
            (1, u64::from(cost.is_some())),
            (8, cost.unwrap_or(0)),
        ],
    );
    a
}

// What stands between the decision and the rooms.
fn head_bytes(answer: Boundaries) -> HeadBytes
    ensures { result ≡ head_bytes (told_boundaries answer) }
{
    let mut a = [0; HEAD_BYTES];
    put_packed(
        &mut a,
        &[
            (4, u64::from(answer.model_id)),
            (1, u64::from(answer.blocked_by_request)),
            (1, answer.levers.count as u64),
            (8, answer.levers.passes),
        ],
    );
    a
}

// All but the levers: their rooms, from 79 on, are still 0.
fn leverless_bytes(answer: Boundaries) -> BoundaryBytes
    ensures { result ≡ filled (uncounted_bytes (told_boundaries answer).decision ++ head_bytes (told_boundaries answer)) (replicate boundary_size 0) }
{
    let mut a = [0; BOUNDARY_BYTES];
    put_bytes(&mut a, 0, &uncounted_bytes(answer.decision));
    put_bytes(&mut a, UNCOUNTED_BYTES, &head_bytes(answer));
    a
}

// The whole answer.
pub fn boundary_bytes(answer: Boundaries) -> BoundaryBytes
    ensures { result ≡ boundary_bytes (told_boundaries answer) }
{
    let mut a = leverless_bytes(answer);
    for (i, requirement) in answer.levers.levers.iter().enumerate() {
        put_bytes(
            &mut a,
            ROOMS_START + LEVER_BYTES * i,
            &lever_bytes(*requirement),
        );
    }
    a
}
