// Delays in samples and in seconds, two types of which neither passes for the other, and the three answers of a filter query.
//
// Inside a set delays are in samples; those answered are in seconds, and only `seconds_of`, a division by the rate, makes the one from the
// other. `answer_of` (specs/Delays.antt) states what each case of an outcome says, by document 01's numbers.
#![tactic(auto)]

ghost use Rattle.std.specs.Prelude.{◌≡◌};
ghost use Rattle.delays.specs.Delays.{seconds_of, answer_of};

#[derive(Clone, Copy)]
pub struct Samples(pub f32);

#[derive(Clone, Copy)]
pub struct Seconds(pub f32);

// What a filter query answers: the left and the right delay; with how many points were blended; or the number and the place of a refusal.
// Three named outcomes, as document 01 has them, and a refusal by its numbers there: hosts get them as they stand.
#[derive(Clone, Copy)]
pub enum Outcome {
    Exact(Seconds, Seconds),
    Blended(Seconds, Seconds, usize),
    Refused(u32, usize),
}

// An outcome as plain numbers, for a host or a text, as the C interface has it: a number and a flag in place of cases. The reason is 0 where
// nothing was refused.
#[derive(Clone, Copy)]
pub struct Answer {
    pub reason: u32,
    pub place: usize,
    pub blended: bool,
    pub points: usize,
    pub left: Seconds,
    pub right: Seconds,
}

// Samples divided by the rate.
pub fn seconds_of(delay: Samples, rate: f32) -> Seconds
    ensures { result ≡ seconds_of delay rate }
{
    Seconds(delay.0 / rate)
}

// By the name of its definition, which document 01 has line by line: `Answer::from` would say no more.
pub fn answer_of(outcome: Outcome) -> Answer
    ensures { result ≡ answer_of outcome }
{
    match outcome {
        Outcome::Exact(left, right) => Answer {
            reason: 0,
            place: 0,
            blended: false,
            points: 1,
            left,
            right,
        },
        Outcome::Blended(left, right, points) => Answer {
            reason: 0,
            place: 0,
            blended: true,
            points,
            left,
            right,
        },
        Outcome::Refused(reason, place) => Answer {
            reason,
            place,
            blended: false,
            points: 0,
            left: Seconds(0.0),
            right: Seconds(0.0),
        },
    }
}
