//! Ordered lists of keys in memory that is lent: finding, adding and removing, for any key whose order is total.
#![tactic(auto)]

pub mod key;
pub mod laws;
pub mod lent;
pub mod list;
