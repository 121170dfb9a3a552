// Demands 2 and 3 from `load` on: what a load that is not refused leaves, and what every later call over it answers, is what the source's `open_data` builds and
// its functions answer, bit for bit; and what `find` names over it is nearest, a tie being an honest one. Theory alone: no function.
//
// specs/Load.antt states it on one page (`LoadsAsSource`); specs/Domain.antt is document 01's domain in plain orders (`Domain`). proofs/Load.antt proves it for
// every input that `load` accepts (`from_load`), proofs/Domain.antt that `load` accepts all of the domain (`accepts`), and so the theorem (`demand_2`).
// specs/Found.antt states demand 3 of a loaded set on one page (`FindsNearest`); proofs/Found.antt proves it from a load that answered and a finite query
// (`found`), and so for the whole domain (`demand_3`).
//
// The way there: proofs/Positions.antt (the Cartesian list is what the source copies or converts, within ±10001), proofs/Loaded.antt (the premise of source_laws's
// `same`), proofs/Checks.antt (no later call is refused by its own checks).
//
// specs/Angles.antt: no angle of a load is refused, on one page. proofs/Angles.antt: each use of an angle is one that `sine`, `cosine` and `arctangent` answer
// (`angles_answered`). proofs/Any.antt: with any angle functions that agree with these where they answer, the source converts and opens the same
// (`any_converts`, `any_angles`), so the +0 that `sin`, `cos` and `atan2` give elsewhere is never seen.
#![tactic(auto)]
