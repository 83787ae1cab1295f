// Reading job bytes: the numbers and words of a job file, line by line, before any bound is looked at.
#![tactic(auto)]

mod cursor;
mod hours;
mod lines;
pub mod raw;
mod sections;
