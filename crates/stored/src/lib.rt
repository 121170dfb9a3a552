// What a set keeps, read out as it stands: reader.rs's calls that search nothing, for every input, with nothing asked of the caller.
//
// A measurement's responses are parts of the caller's list and its neighbours the entries as they stand: `response_of`, `around_of`
// (specs/Numbers.antt). `max_delay` is `max_delay_of` (specs/Longest.antt). What is refused, and in which order, is crate `limits`'s.
#![tactic(auto)]

ghost use Rattle.std.specs.Prelude.{◌≡◌, ◌+◌, ◌*◌, ◌<◌, ◌≤◌, length};
ghost use Rattle.mix.specs.Mix.{receiver_of};
ghost use Rattle.stored.specs.Numbers.{part_of, response_of, entries_of, around_of};
ghost use Rattle.stored.specs.Longest.{longest_of, max_delay_of};

use delays::{Samples, Seconds};
use limits::Sizes;
pub use mix::Ear;
use refusals::Refusal;

// Sizes and number stand one by one: each call measures another of the lent lists, so a struct of both says no more.
// ---- a measurement by its number

// Where the taps of one ear stand in the caller's list, and how many they are.
#[derive(Clone, Copy)]
pub struct Taps {
    pub start: usize,
    pub count: usize,
}

// The taps of an ear in a list of so many responses, or refusal 2, 3 or 8.
#[tactic(auto, unfolding(crate::specs::Numbers::part_of))]
pub fn part_of(sizes: Sizes, responses: usize, number: usize, ear: Ear) -> Result<Taps, Refusal>
    ensures { result ≡ part_of sizes responses number (receiver_of ear) }
{
    limits::judge_response(sizes, responses, number)?;
    Ok(Taps {
        start: mix::start(number, sizes.r, sizes.n, ear),
        count: sizes.n,
    })
}

// A part of the caller's own list, not a copy: empty where it is refused, and `part_of` says why.
// No Result: what is promised is a list for every input (`response_of`).
pub fn response(sizes: Sizes, responses: &[f32], number: usize, ear: Ear) -> &[f32]
    ensures { result.now ≡ response_of sizes responses.now number (receiver_of ear) }
{
    let Ok(Taps { start, count }) = part_of(sizes, responses.len(), number, ear) else {
        return &responses[..0];
    };
    &responses[start..start + count]
}

// The six entries of a measurement as they stand: 65535 is absent.
// Numbers, and no Option: they are answered as the lent table has them, in range or not (`around_of`).
#[derive(Clone, Copy)]
pub struct Entries {
    pub phi_plus: u16,
    pub phi_minus: u16,
    pub theta_plus: u16,
    pub theta_minus: u16,
    pub radius_plus: u16,
    pub radius_minus: u16,
}

fn row(neighbours: &[u16], number: usize) -> Entries
    requires { 6 * number + 5 < length neighbours.now }
    ensures { result ≡ entries_of neighbours.now number }
{
    Entries {
        phi_plus: neighbours[6 * number + 0],
        phi_minus: neighbours[6 * number + 1],
        theta_plus: neighbours[6 * number + 2],
        theta_minus: neighbours[6 * number + 3],
        radius_plus: neighbours[6 * number + 4],
        radius_minus: neighbours[6 * number + 5],
    }
}

// A measurement's six neighbours, or refusal 2, 3 or 8.
#[tactic(auto, unfolding(crate::specs::Numbers::around_of))]
pub fn neighbors_of(sizes: Sizes, neighbours: &[u16], number: usize) -> Result<Entries, Refusal>
    ensures { result ≡ around_of sizes neighbours.now number }
{
    limits::judge_neighbours(sizes, neighbours.len(), number)?;
    Ok(row(neighbours, number))
}

// ---- delays

// From +0, passing over NaN.
fn longest(delays: &[f32]) -> Samples
    ensures { result ≡ longest_of delays.now }
{
    Samples(
        delays
            .iter()
            .fold(0.0, |most, delay| floats::max(most, *delay)),
    )
}

// The longest delay of a set, or refusal 6.
#[tactic(auto, unfolding(crate::specs::Longest::max_delay_of))]
pub fn max_delay(delays: &[f32], rate: f32) -> Result<Seconds, Refusal>
    ensures { result ≡ max_delay_of delays.now rate }
{
    limits::judge_rate(rate)?;
    Ok(delays::seconds_of(longest(delays), rate))
}
