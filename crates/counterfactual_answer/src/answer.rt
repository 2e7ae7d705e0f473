// The answer of both calls, by its parts. A refusal carries none of them.
ghost use Rattle.std.specs.Prelude.{◌≡◌};
ghost use Rattle.rules.specs.Refused.{no_fault};
ghost use Rattle.rules.specs.Numbers.{told_decision, told_boundaries};
ghost use Rattle.counterfactual_answer.specs.Levers.{told_levers, boundary_with};

use rules::{Boundaries, KernelDecision, Levers};

// An answer with the opening decision and the levers found.
pub fn answered(id: u32, decision: KernelDecision, blocked: bool, levers: Levers) -> Boundaries
    ensures { told_boundaries result ≡ boundary_with no_fault id (told_decision decision) blocked (told_levers levers) }
{
    Boundaries {
        model_id: id,
        decision,
        blocked_by_request: blocked,
        levers,
    }
}
