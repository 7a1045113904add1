// The theorems on a row at once with a gather buffer lent: it is what single calls answer. specs/Agreement.antt states them, of the
// definitions of `gathered`. There is nothing to call.

#![tactic(auto)]
