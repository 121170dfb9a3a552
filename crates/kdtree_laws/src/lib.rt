// Why a tie is honest: what the bare tree's answers mean for the measurements that were inserted. Theory alone: no function.
//
// specs/Demand3.antt states it, proofs/Demand3.antt proves it, with nothing assumed: for a tree made by inserts with room, `names` (the pruned
// search names what the unpruned walk names), `least`, `first_met`, `unique`, all of these in one record (`names_nearest`), `both_orders`
// (demand 3), `never_refused`, `visits_bounded` and `nan_query`. Finite coordinates and a finite query are asked for where a distance must be
// a number, and nowhere else; sums that overflow are no exception. Document 01's examples of it, P1 to P7, stand in the table of the crate
// `proved_examples`.
//
// The way there: points' proofs/Gap.antt and proofs/Box.antt (no point in a box is nearer than the box, in rounded arithmetic), proofs/Pruned.antt
// (so the search may pass the box over), proofs/First.antt (the walk names a first minimum), proofs/Rep.antt and proofs/Filled.antt (what the
// lists draw after inserts).
#![tactic(auto)]
