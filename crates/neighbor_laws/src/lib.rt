// What the neighbour table's definitions mean. Theory alone: no function.
//
// proofs/Settled.antt: over links that were built (`Lookup::new`), with any lookup and any steps, each search answers absent or the number of
// another measurement (`settled`, `entries`), so the table is filled whole and a load never refuses 9 (`filled`). proofs/Absent.antt: over
// any links a direction is absent exactly if each step before the end gives its own number. proofs/Caps.antt: for an allowed step the cap is 1 to 450.
// specs/Answered.antt, proofs/Answered.antt: for an allowed step each azimuth of a search lies from -450 to 450 degrees and each elevation from -90 to 90, so
// that sine and cosine are asked for nothing that the calls would refuse (`search_answered`).
#![tactic(auto)]
