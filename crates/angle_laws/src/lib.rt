// Theory: the exact steps of the crate `angles` meet document 01's "Angles". No code stands here.
//
// specs/Series, specs/Angle: S and C. specs/Asked: what is asked of an arctangent.
// proofs/Near: `sine_near`, `cosine_near`, within 2^-20 of S and C for every f32 from -16 to 16.
// proofs/Zero: `arctan_good`, the arctangent's rules for every two finite f32.
#![tactic(auto)]
