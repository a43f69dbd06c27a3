//! What the record of a pass has, as parts that add up, and when a record backs a list of answers:
//! each answer is that of a call that stands in the record. It has no code that runs.
#![tactic(auto)]
