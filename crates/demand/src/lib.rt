// Open demand: what the order lines still lack, as a number, and how the cells of an aisle lessen it.
//
// A demand is a number in mixed radix. Each order line is a digit, what the line still lacks, and its radix is its quantity + 1;
// the first line is the lowest digit. So 0 lacks nothing, and weight - 1 the whole list.
#![tactic(auto)]

pub mod digits;
pub mod maps;
