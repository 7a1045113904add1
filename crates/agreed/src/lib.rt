// The theorems on a table that both may trust: when its listing is given, what is told where it is not, and that every row of it is
// the same in the old reading. specs/Agreed.antt states them, of the definitions of the calls. There is nothing to call.

#![tactic(auto)]
