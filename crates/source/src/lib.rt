// The source library's functions, transcribed one by one as pure definitions, to be held beside the Rust. Definitions alone: no function, no theorem.
//
// One file of specs/ stands for one file of the source (Coords, Kdtree, Lookup, Neighbors, Interpolate: src/sofa; Hrtf: src/sofa/reader.rs; Reader:
// src/reader.rs), its functions in the same order under the same names, each under a line that names it. specs/Rust.antt says how the language's own parts
// are read: arrays, `Option`, f32. Nothing here is the port's: the two meet in the crates source_laws and load_laws, which prove that they answer the same.
#![tactic(auto)]
