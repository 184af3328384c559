// Document 01's marked cases: specs/Marked.antt states them together, by the definitions that the public entries promise, and
// proofs/Table.antt proves them.
#![tactic(auto)]
