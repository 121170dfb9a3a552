// Document 01's proved examples P1 to P12: one table (specs/Table.antt) under one theorem about the definitions (proofs/Table.antt), by
// computation. Theory alone: no function.
#![tactic(auto)]
