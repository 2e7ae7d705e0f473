// An answer's levers: room for four, how many are there, and the passes. A lever for which there is no room is left out, so that no count
// has to be asked for; four are searched at most.
ghost use Rattle.std.specs.Prelude.{◌≡◌, ◌+◌, ◌<◌, ◌^◌};
ghost use Rattle.std.proofs.Math.Option.{none, some};
ghost use Rattle.rules.specs.Limits.{ppm};
ghost use Rattle.rules.specs.Numbers.{told_entry};
ghost use Rattle.rules.specs.Levers.{entry};
ghost use Rattle.rules.specs.Levers as rule;
ghost use Rattle.rules.specs.Halving.{passes_of};
ghost use Rattle.counterfactual_answer.specs.Levers.{told_levers, empty_room, pushed, passed, rooms_joined, room_of, priced_by, four_sought, FewPasses};

use counterfactual_lever::{P95_LATENCY_MS, PRICE_SCALE_PPM, QUALITY_BPS, RISK_CEILING_BPS};
use rules::limits::PPM;
use rules::{Bound, KernelModel, Levers, Requirement};

// `plain`: a lever that carries no cost.
pub fn plain(lever: u8, current: u64, boundary: u64) -> Requirement
    ensures { told_entry result ≡ entry lever current boundary none }
{
    Requirement {
        lever,
        current,
        boundary,
        cost_at_boundary_microunits: None,
    }
}

// `priced`: the price lever at a scale, with what the decision costs there.
fn priced(scale: u64, cost: u64) -> Requirement
    ensures { told_entry result ≡ entry 3 ppm scale (some cost) }
{
    Requirement {
        lever: PRICE_SCALE_PPM,
        current: PPM,
        boundary: scale,
        cost_at_boundary_microunits: Some(cost),
    }
}

// No lever, after so many passes.
pub fn no_levers(passes: u64) -> Levers
    ensures { told_levers result ≡ empty_room passes }
{
    let nothing = plain(0, 0, 0);
    Levers {
        levers: [nothing; 4],
        count: 0,
        passes,
    }
}

// One lever more.
#[tactic(auto, using(crate::proofs::Rooms::pushes), unfolding(crate::specs::Levers::pushed, rules::specs::Choice::below))]
pub fn push(mut levers: Levers, requirement: Requirement) -> Levers
    ensures { told_levers result ≡ pushed (told_levers levers) (told_entry requirement) }
{
    if levers.count < levers.levers.len() {
        levers.levers[levers.count] = requirement;
        levers.count += 1;
    }
    levers
}

// So many passes more.
fn pass(mut levers: Levers, n: u64) -> Levers
    requires { levers.passes + n < 2 ^ 64 }
    ensures { told_levers result ≡ passed (told_levers levers) n }
{
    levers.passes += n;
    levers
}

// With what the search of a lever found.
#[tactic(auto, using(crate::proofs::Rooms::pushes))]
fn note(levers: Levers, lever: u8, current: u64, found: Bound) -> Levers
    requires { levers.passes + passes_of found < 2 ^ 64 }
    ensures { told_levers result ≡ rooms_joined (told_levers levers) (rule.plain lever current found) }
{
    match found.boundary {
        Some(boundary) => pass(push(levers, plain(lever, current, boundary)), found.passes),
        None => pass(levers, found.passes),
    }
}

// With what the search of the price found, and the cost there.
#[tactic(auto, using(crate::proofs::Rooms::pushes))]
fn note_price(levers: Levers, found: Bound, cost: u64) -> Levers
    requires { levers.passes + passes_of found + 1 < 2 ^ 64 }
    ensures { told_levers result ≡ rooms_joined (told_levers levers) (priced_by cost found) }
{
    match found.boundary {
        Some(scale) => pass(push(levers, priced(scale, cost)), found.passes + 1),
        None => pass(levers, found.passes),
    }
}

// What the searches of a model's four levers found, in their order; the opening decision is one pass.
pub fn noted_levers(
    model: KernelModel,
    quality: Bound,
    latency: Bound,
    price: Bound,
    cost: u64,
    ceiling: Bound,
) -> Levers
    requires { FewPasses quality latency price ceiling }
    ensures { told_levers result ≡ room_of (four_sought model quality latency (priced_by cost price) ceiling) }
{
    let one = note(
        no_levers(1),
        QUALITY_BPS,
        u64::from(model.quality_bps),
        quality,
    );
    let two = note(
        one,
        P95_LATENCY_MS,
        u64::from(model.p95_latency_ms),
        latency,
    );
    let three = note_price(two, price, cost);
    note(
        three,
        RISK_CEILING_BPS,
        u64::from(model.risk_ceiling_bps),
        ceiling,
    )
}
