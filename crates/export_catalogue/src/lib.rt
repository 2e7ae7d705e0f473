// For the library: what stands behind the exported functions that check a catalogue, with the policy as bytes. Each function takes the very
// slices of an exported one and answers its word: 0, or the refusal's.
#![tactic(auto)]

ghost use Rattle.std.specs.Prelude.{◌≡◌};
ghost use Rattle.rules.specs.Refused.{first_fault};
ghost use Rattle.export_checks.specs.Checks.{word_of};
ghost use Rattle.export_catalogue.specs.Catalogue.{validate_faults, trust_call};

use bank::unchecked::policy_of;
use catalogue::trust;
use catalogue_validation::validate;
use export_checks::{outcome_word, refusal_word};
use unpacking_policy::policy_lent_outcome;

// Whether a policy with its bank may serve. Refused: 22, 23, 1, 2, 10, 11, then record by record 12, 13, 14, then 15.
pub fn validate_delivered(policy: &[u8], bank: &[u8]) -> u64
    ensures { result ≡ word_of (first_fault (validate_faults policy.now bank.now)) }
{
    if let Err(refusal) = policy_lent_outcome(policy) {
        return refusal_word(refusal, 0);
    }
    outcome_word(validate(policy_of(policy), bank))
}

// The bank in order, and whether it may then serve. Refused with the bank as it was: 22, 23, 1, 2, 16, 17; in order: 10 to 15.
pub fn trust_delivered(policy: &[u8], bank: &mut [u8]) -> u64
    ensures { (result, bank.new) ≡ trust_call policy.now bank.old }
{
    if let Err(refusal) = policy_lent_outcome(policy) {
        return refusal_word(refusal, 0);
    }
    outcome_word(trust(policy_of(policy), bank))
}
