// The slots of a rack: STORE fills one.
#![tactic(auto)]

mod storing;

pub use storing::store;
