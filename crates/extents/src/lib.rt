// The theorems on the columns of a cell: there are as many as are counted, their values follow each other with no gap, and a
// cursor shows what single calls show. specs/Columns.antt states them, of the definitions of `row`. There is nothing to call.

#![tactic(auto)]
