// For other crates: the decision over a lent bank whose length has been tested, as it is or with one record varied.
#![tactic(auto)]

pub mod decide;
pub mod stand;
