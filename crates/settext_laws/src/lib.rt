// What the lines of a set's text keep to, whatever the text is. Theory alone: no function.
//
// specs/Kept.antt: the limits of the text form; proofs/Reached.antt: every line keeps them (`line`), so that lists of 768, 4096 and 4096 values
// have room for each line's values (`has_room`). proofs/Long.antt: no well-formed line has 40000 bytes, but for the word of `kind=`, so that
// the first 40000 bytes of a line say as much as the whole line (`long_lines`), and at the end of a text whether anything is left (`end_of_lem`).
#![tactic(auto)]
