// What the weights of a blend come to, for finite coordinates and a finite query. Theory alone: no function.
//
// specs/Weights.antt states it and proofs/Weights.antt proves it, with nothing assumed. `blended`: where the answer is blended with c points, c
// is the length of the list of points, one to four; the weights' sum is finite, above zero and no less than any of them; and each weight divided
// by the sum lies from +0 to 1. Distances that overflow are no exception: their weight is +0. proofs/Distances.antt has why no distance is
// negative or a NaN.
#![tactic(auto)]
