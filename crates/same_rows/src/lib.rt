// The theorems on a row that comes with its values by one call: it is what single calls answer. specs/Agreement.antt states
// them, of the definitions of `exports`. There is nothing to call.

#![tactic(auto)]
