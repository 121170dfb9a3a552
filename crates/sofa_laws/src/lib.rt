// From a host's calls to the source: what a host hears, each call by its own contract as the check reads it (`Post`), and no copy of it. Theory alone.
//
// specs/Host.antt: of a `sofa_load` and, where its reason is 0, of every call over the set that it left, demand 3 of `sofa_find` too (`LoadHeard`, `HearsSource`;
// specs/Calls.antt names the arguments); proofs/Host.antt proves it (`heard`). specs/Bare.antt: of the bare tree, demands 2 and 3 by `sofa_tree_insert` and
// `sofa_tree_nearest` (`bare_heard`, `demand3_heard`). specs/Numbers.antt: of root, sine, cosine, arctangent and the conversions (`numbers`).
#![tactic(auto)]
