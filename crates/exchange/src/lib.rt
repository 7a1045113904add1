// The theorems on two trucks over one table: each half holds what its own truck's calls alone make of it, and so what the last of them
// that was accepted wrote; what is behind both halves never changes; and an answer depends on its own bytes, its page and the table's
// length. specs/ states them, of the page call's own promise (`lent`). There is nothing to call.

#![tactic(auto)]
