// What every definition and every proof leans on, and no code: the choice by a test (specs/Pick.antt), the rule of a
// table and parts of lists (proofs/). It has no function of its own.

#![tactic(auto)]
