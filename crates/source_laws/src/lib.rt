// Demand 2 as a theorem: the port answers what the source answers, bit for bit. Theory alone: no function.
//
// The source's side is the crate source, its functions transcribed one by one; the port's side is the definitions that the contracts cite. specs/Same.antt
// states it on one page for a loaded set (`SameAsSource`): tree, box, six bounds, neighbour table, radius clamp, find, find_mut, the blended and the plain
// filter and the filter by number. specs/Bare.antt states it for the bare tree (`SameTree`), for any f32, specs/Turns.antt for the conversions
// (`SameTurns`). proofs/Same.antt (`same`), proofs/Bare.antt (`bare`) and proofs/Turns.antt (`turns`) prove it, with nothing assumed. specs/Drawn.antt says
// which values of the source the port's lists and structs stand for, specs/Way.antt which outcome the port tells of a query that the source answers.
// That `load` leaves a loaded set, and what the reader's calls, their checks included, answer over it, is the crate load_laws's theorem.
//
// The way there: proofs/Shapes.antt (points and boxes), proofs/Search.antt (nearest_rec, visit by visit), proofs/Insert.antt (insert_rec), proofs/Find.antt and
// proofs/Bare.antt (nearest), proofs/Built.antt and proofs/Linked.antt (lookup.rs: a loaded set is the bare tree filled in place order, by lookup_laws),
// proofs/Caps.antt, proofs/Steps.antt, proofs/Table.antt and proofs/Rows.antt (neighbors.rs), proofs/Points.antt, proofs/Delays.antt, proofs/Ears.antt,
// proofs/Blend.antt and proofs/Interpolate.antt (interpolate.rs and fill_filter).
#![tactic(auto)]
