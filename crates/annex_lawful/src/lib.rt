// Whether a plan is lawful, and how long it is: what the definitions say, counted and followed on the plan itself.
#![tactic(auto)]

pub mod lawful;
pub mod lengths;
