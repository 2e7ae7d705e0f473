// What a policy and its catalogue must keep to before they serve. Those passed on here ask nothing of their caller.
#![tactic(auto)]

mod loading;

pub use catalogue_validation::validate;
pub use loading::trust;
