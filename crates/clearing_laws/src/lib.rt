// What a clearing means over links that were built. Theory alone: no function.
//
// proofs/Cleared.antt: every other measurement of the tree is listed or outside of the open box (`cleared_out`). proofs/Faces.antt: what is outside is no
// nearer to a query than a face. proofs/Listed.antt: the nearest of those listed, where none is as near, is nearer than the others (`nearest_listed_lem`).
// proofs/Alone.antt: so a query for which `alone` holds of that nearest finds it (`alone_found`).
#![tactic(auto)]
