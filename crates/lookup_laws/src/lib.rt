// What the lookup's definitions mean. Theory alone: no function.
//
// proofs/Loaded.antt: the links that `Lookup::new` writes are those of the bare tree filled in place order, each measurement's number being
// its place, and the box is that tree's (`loaded`); so every search over them finds a measurement below M, for any box, any bounds and any
// query, and refusal 9 is never given (`found`, `never_refused`). proofs/Nearest.antt: demand 3 carried over. With the box as built, what is
// found is what the unpruned walk names (`names`); no measurement is nearer to the clamped query (`least`), one that alone is nearest is
// found (`alone`), and of several the first that the walk over the set's own links meets (`first_met`, `meets`).
// proofs/Clamp.antt: the clamp's scale is at most 1 when it draws in (`scale_in`), an overflowing radius gives the origin
// (`overflow_origin`), and the clamped coordinates of a finite query are finite (`clamped_finite`) for bounds as a load gives them
// (proofs/Bounds.antt: `loaded_radii`).
#![tactic(auto)]
