// Theory: where converted positions lie, and that their angles are answered. No code stands here.
//
// proofs/Inside: `inside`, a spherical position with an allowed radius has Cartesian coordinates of
// magnitude at most 10001, whatever its angles.
//
// specs/Answered, proofs/Answered: sine, cosine and arctangent are asked for nothing that the calls
// `sine`, `cosine` and `arctangent` would refuse, by any conversion that is not refused itself
// (`conversions_answered`).
#![tactic(auto)]
