// The theorems on the guarded reading: what it may be trusted for, of every database, page and cell. specs/Agreement.antt
// states them, of the answers of all three readings (specs/Shows.antt). There is nothing to call.

#![tactic(auto)]
