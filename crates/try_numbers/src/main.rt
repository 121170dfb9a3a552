// Odd and bad input, tried through the number crates: one line for each try, compared with the file stdout.
//
// A value is printed as the eight digits of its bits, a NaN as 7fc00000. A verdict is `fine`, or
// `refused` with document 01's number and place.
#![tactic(auto)]

mod calls;
mod leaves;
mod ranges;
mod show;
mod triplets;

fn main() {
    leaves::tries();
    ranges::tries();
    calls::tries();
    triplets::tries();
}
