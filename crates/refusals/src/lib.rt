// What a call says no to, once for every caller: each way of saying no is a case of its own, which carries
// what its place is made of, and a call that may be refused answers a `Result` with this error.
//
// specs/Refusals.antt is document 01's table of refusals line by line: the number of each case, and its place.
// `allow` is the step by which a call says no: `allow(test, refusal)?`.
#![tactic(auto)]

ghost use Rattle.std.specs.Prelude.{◌≡◌};
ghost use Rattle.refusals.specs.Refusals.{number_of, place_of, allowed};

#[derive(Clone, Copy)]
pub enum Refusal {
    // a position kind that is neither 0 nor 1
    UnknownKind(u32),
    // M, C, R or N is not allowed
    BadSizes,
    // a lent list is too short, or positions are not 3M long
    ShortLists,
    // a position value is not allowed: its first index
    BadPosition(usize),
    BadAngleStep,
    BadRadiusStep,
    BadRate,
    // a coordinate of a query or an argument of a single angle call: which one
    BadValue(usize),
    // no measurement has this number
    NoMeasurement(usize),
    // a link or a neighbour is wrong, or a search goes in circles
    BadLink,
}

impl Refusal {
    // Two methods and no `From`: a refusal has two numbers, and a conversion would not say which it gives.
    pub fn number(self) -> u32
        ensures { result ≡ number_of self }
    {
        match self {
            Refusal::UnknownKind(_) => 1,
            Refusal::BadSizes => 2,
            Refusal::ShortLists => 3,
            Refusal::BadPosition(_) => 4,
            Refusal::BadAngleStep | Refusal::BadRadiusStep => 5,
            Refusal::BadRate => 6,
            Refusal::BadValue(_) => 7,
            Refusal::NoMeasurement(_) => 8,
            Refusal::BadLink => 9,
        }
    }

    pub fn place(self) -> usize
        ensures { result ≡ place_of self }
    {
        match self {
            Refusal::UnknownKind(kind) => kind as usize,
            Refusal::BadPosition(index) => index,
            Refusal::BadRadiusStep => 1,
            Refusal::BadValue(argument) => argument,
            Refusal::NoMeasurement(number) => number,
            _ => 0,
        }
    }
}

// A step of a call that may be refused: what it asks for is so, or the call says no.
pub fn allow(ok: bool, refusal: Refusal) -> Result<(), Refusal>
    ensures { result ≡ allowed ok refusal }
{
    if ok { Ok(()) } else { Err(refusal) }
}
