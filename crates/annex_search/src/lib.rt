// The annex's own method (#110): every plan of a small store is tried, one after another, and the best is kept.
#![tactic(auto)]

pub mod best;
pub mod search;
