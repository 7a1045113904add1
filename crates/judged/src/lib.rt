// The theorems on calls that are lent a gather buffer: what the guarded reading may be trusted for there, and that all but 18
// stays as it is with none. specs/Agreement.antt states them, of the definitions of `spilled` and `marked`. There is nothing to call.

#![tactic(auto)]
