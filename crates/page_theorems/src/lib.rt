// The theorems on pages: those that are counted are there, a cell of a page that was opened first is the cell of the page, the calls
// on a cell answer what the page call's entry has, and a page call that is refused leaves the table that is lent as it was.
// specs/ states them, of the definitions of `place`, `cells`, `row`, `table` and `lent`. There is nothing to call.

#![tactic(auto)]
