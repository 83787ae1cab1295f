// A policy's rules, read as they stand in document 01, 'Policies', and in the requests #104, #106, #107 and #109.
#![tactic(auto)]

pub mod asked;
mod kinds;
mod middle;
pub mod own;
pub mod policy;
mod row;
