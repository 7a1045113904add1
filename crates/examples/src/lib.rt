// Rows worked by hand, in the three readings: specs/Rows.antt has them as one table, and proofs/Rows.antt computes it from
// the definitions. specs/Chains.antt has what spills in the same way. There is nothing to call.

#![tactic(auto)]
