// The theorems on the rows of a table: they rise, each is a cell of a leaf that lies in the file, none is listed twice, no more
// pages are visited than the file has, and all rows of an accepted table are listed. specs/Trees.antt states them, of the
// definitions of `walk` and `standing`. There is nothing to call.

#![tactic(auto)]
