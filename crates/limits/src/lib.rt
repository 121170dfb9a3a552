// Which numbers are allowed, and what a call says no to, once for every caller.
//
// specs/Allowed.antt is document 01's "Numbers allowed". specs/Refusals.antt is its table of
// refusals, a definition to each line, and for each call the list of its lines: `verdict_of` gives
// the refusal of the first line that is met. Each judge here equals that for every input, so no call
// can say no in another order. Two lines stand elsewhere: 7 for single angle calls in the crate `angles`, and
// 9, which a search meets on its way.
//
// proofs/Passed.antt has what a verdict of Ok gives a caller, proofs/Lines.antt that the verdict
// is the first line met, proofs/Values.antt that a refused value is the first bad one, and
// proofs/Ends.antt that allowed values are finite and which f32 the least angle step is.
#![tactic(auto, unfolding(crate::specs::Refusals::verdict_of))]

ghost use Rattle.std.specs.Prelude.{◌≡◌, true, false, [], ◌∷◌, length, MatchResult};
ghost use Rattle.refusals.specs.declared.Refusal.TheVariants.{BadSizes};
ghost use Rattle.limits.specs.Allowed.{between, tree_lengths, sizes_ok, tree_fits, responses_fit, neighbours_fit, plain_fits, blend_fits, load_fits, kind_ok, position_ok, angle_step_ok, radius_step_ok, rate_ok};
ghost use Rattle.limits.specs.Refusals.{verdict_of, bad_value, bad_rate, bad_number, query_lines, content_lines, load_lines, find_lines, filter_lines, number_lines, rated_lines, rate_lines, value_lines};

use points::Point3;
use refusals::{Refusal, allow};

// M measurements, C coordinates, R receivers, N taps. Hosts hand it over as it stands, as they do the box and the lookup.
#[repr(C)]
#[derive(Clone, Copy)]
pub struct Sizes {
    pub m: usize,
    pub c: usize,
    pub r: usize,
    pub n: usize,
}

// How long the lists are that a search goes by.
#[derive(Clone, Copy)]
pub struct TreeLengths {
    pub cartesian: usize,
    pub left: usize,
    pub right: usize,
}

impl TreeLengths {
    pub fn of(cartesian: &[f32], left: &[u16], right: &[u16]) -> TreeLengths
        ensures { result ≡ tree_lengths cartesian.now left.now right.now }
    {
        TreeLengths {
            cartesian: cartesian.len(),
            left: left.len(),
            right: right.len(),
        }
    }
}

// How long the lists are that a blended filter reads.
#[derive(Clone, Copy)]
pub struct Lengths {
    pub tree: TreeLengths,
    pub responses: usize,
    pub neighbours: usize,
}

#[tactic(auto, unfolding(crate::specs::Allowed::sizes_ok))]
pub fn sizes_ok(s: Sizes) -> bool
    ensures { result ≡ sizes_ok s }
{
    (1 <= s.m) & (s.m <= 16384) & (s.c == 3) & (2 <= s.r) & (s.r <= 8) & (s.n <= 8192)
}

// Sizes that are allowed: by these the lent lists are measured, and no product wraps.
#[derive(Clone, Copy)]
struct AllowedSizes {
    sizes: Sizes,
    ghost ok: { sizes_ok sizes ≡ true },
}

impl AllowedSizes {
    fn of(sizes: Sizes) -> Result<AllowedSizes, Refusal>
        ensures { MatchResult result
            (λ a. (sizes_ok sizes ≡ true) × (a.sizes ≡ sizes))
            (λ r. (sizes_ok sizes ≡ false) × (r ≡ BadSizes)) }
    {
        allow(sizes_ok(sizes), Refusal::BadSizes)?;
        Ok(AllowedSizes { sizes })
    }

    #[tactic(auto, unfolding(crate::specs::Allowed::tree_fits))]
    fn tree_fits(self, t: TreeLengths) -> bool
        ensures { result ≡ tree_fits self.sizes t }
    {
        let m = self.sizes.m;
        (3 * m <= t.cartesian) & (m <= t.left) & (m <= t.right)
    }

    #[tactic(auto, unfolding(crate::specs::Allowed::responses_fit))]
    fn responses_fit(self, len: usize) -> bool
        ensures { result ≡ responses_fit self.sizes len }
    {
        self.sizes.m * self.sizes.r * self.sizes.n <= len
    }

    #[tactic(auto, unfolding(crate::specs::Allowed::neighbours_fit))]
    fn neighbours_fit(self, len: usize) -> bool
        ensures { result ≡ neighbours_fit self.sizes len }
    {
        6 * self.sizes.m <= len
    }

    #[tactic(auto, unfolding(crate::specs::Allowed::plain_fits))]
    fn plain_fits(self, t: TreeLengths, responses: usize) -> bool
        ensures { result ≡ plain_fits self.sizes t responses }
    {
        self.tree_fits(t) & self.responses_fit(responses)
    }

    #[tactic(auto, unfolding(crate::specs::Allowed::blend_fits))]
    fn blend_fits(self, l: Lengths) -> bool
        ensures { result ≡ blend_fits self.sizes l }
    {
        self.plain_fits(l.tree, l.responses) & self.neighbours_fit(l.neighbours)
    }

    #[tactic(auto, unfolding(crate::specs::Allowed::load_fits))]
    fn load_fits(self, l: Lengths, positions: usize) -> bool
        ensures { result ≡ load_fits self.sizes l positions }
    {
        (positions == 3 * self.sizes.m) & self.blend_fits(l)
    }
}

// 0 is cartesian, 1 spherical: kinds stay numbers, as document 01 has them, and unknown ones are a case of the match.
#[tactic(auto, unfolding(crate::specs::Allowed::kind_ok))]
pub fn kind_ok(kind: u32) -> bool
    ensures { result ≡ kind_ok kind }
{
    match kind {
        0 | 1 => true,
        _ => false,
    }
}

// Never of a NaN.
#[tactic(auto, unfolding(crate::specs::Allowed::between))]
fn between(low: f32, high: f32, x: f32) -> bool
    ensures { result ≡ between low high x }
{
    (low <= x) & (x <= high)
}

// Whether a value may stand at an index of a list of positions.
// A kind is a number, matched with all unknown values, as in `kind_ok`.
pub fn position_ok(kind: u32, i: usize, x: f32) -> bool
    ensures { result ≡ position_ok kind i x }
{
    match kind {
        0 => between(-10000.0, 10000.0, x),
        1 => {
            if i % 3 == 2 {
                between(0.0, 10000.0, x)
            } else {
                between(-720.0, 720.0, x)
            }
        }
        _ => false,
    }
}

// Three names over `between`: each is a line of document 01's "Numbers allowed", with a definition of its own.
pub fn angle_step_ok(x: f32) -> bool
    ensures { result ≡ angle_step_ok x }
{
    between(0.1, 45.0, x)
}

pub fn radius_step_ok(x: f32) -> bool
    ensures { result ≡ radius_step_ok x }
{
    between(0.001, 1.0, x)
}

pub fn rate_ok(x: f32) -> bool
    ensures { result ≡ rate_ok x }
{
    between(1000.0, 384000.0, x)
}

// A whole list of positions, of any length: its first value that is not allowed.
pub fn judge_positions(kind: u32, xs: &[f32]) -> Result<(), Refusal>
    ensures { result ≡ verdict_of (bad_value kind xs.now (length xs.now) ∷ []) }
{
    for (i, x) in xs.iter().enumerate() {
        allow(position_ok(kind, i, *x), Refusal::BadPosition(i))?;
    }
    Ok(())
}

fn judge_query(q: Point3) -> Result<(), Refusal>
    ensures { result ≡ verdict_of (query_lines q) }
{
    allow(floats::is_finite(q.x), Refusal::BadValue(0))?;
    allow(floats::is_finite(q.y), Refusal::BadValue(1))?;
    allow(floats::is_finite(q.z), Refusal::BadValue(2))
}

fn judge_content(kind: u32, xs: &[f32], astep: f32, rstep: f32, rate: f32) -> Result<(), Refusal>
    ensures { result ≡ verdict_of (content_lines kind xs.now (length xs.now) astep rstep rate) }
{
    judge_positions(kind, xs)?;
    allow(angle_step_ok(astep), Refusal::BadAngleStep)?;
    allow(radius_step_ok(rstep), Refusal::BadRadiusStep)?;
    judge_rate(rate)
}

// What a call goes by stands one by one, as the C interface hands it over and the lines of the table name it.
pub fn judge_load(
    kind: u32,
    s: Sizes,
    l: Lengths,
    positions: &[f32],
    astep: f32,
    rstep: f32,
    rate: f32,
) -> Result<(), Refusal>
    ensures { result ≡ verdict_of (load_lines kind s l positions.now astep rstep rate) }
{
    allow(kind_ok(kind), Refusal::UnknownKind(kind))?;
    let sizes = AllowedSizes::of(s)?;
    allow(sizes.load_fits(l, positions.len()), Refusal::ShortLists)?;
    judge_content(kind, positions, astep, rstep, rate)
}

// Each call below is the list of its own lines. Two that differ in the list that they measure stay two: one function of both would take a
// closure for one line.

// For find and find_mut.
pub fn judge_find(s: Sizes, t: TreeLengths, q: Point3) -> Result<(), Refusal>
    ensures { result ≡ verdict_of (find_lines s t q) }
{
    let sizes = AllowedSizes::of(s)?;
    allow(sizes.tree_fits(t), Refusal::ShortLists)?;
    judge_query(q)
}

fn judge_asked(rate: f32, q: Point3) -> Result<(), Refusal>
    ensures { result ≡ verdict_of (bad_rate rate ∷ query_lines q) }
{
    judge_rate(rate)?;
    judge_query(q)
}

// For the blended filter.
pub fn judge_filter(s: Sizes, l: Lengths, rate: f32, q: Point3) -> Result<(), Refusal>
    ensures { result ≡ verdict_of (filter_lines s (blend_fits s l) rate q) }
{
    let sizes = AllowedSizes::of(s)?;
    allow(sizes.blend_fits(l), Refusal::ShortLists)?;
    judge_asked(rate, q)
}

// For the plain filter.
pub fn judge_filter_nointerp(
    s: Sizes,
    t: TreeLengths,
    responses: usize,
    rate: f32,
    q: Point3,
) -> Result<(), Refusal>
    ensures { result ≡ verdict_of (filter_lines s (plain_fits s t responses) rate q) }
{
    let sizes = AllowedSizes::of(s)?;
    allow(sizes.plain_fits(t, responses), Refusal::ShortLists)?;
    judge_asked(rate, q)
}

fn judge_below(s: Sizes, number: usize) -> Result<(), Refusal>
    ensures { result ≡ verdict_of (bad_number s number ∷ []) }
{
    allow(number < s.m, Refusal::NoMeasurement(number))
}

// For the filter by number.
pub fn judge_number(s: Sizes, responses: usize, rate: f32, number: usize) -> Result<(), Refusal>
    ensures { result ≡ verdict_of (rated_lines s (responses_fit s responses) rate number) }
{
    let sizes = AllowedSizes::of(s)?;
    allow(sizes.responses_fit(responses), Refusal::ShortLists)?;
    judge_rate(rate)?;
    judge_below(s, number)
}

// For a measurement's left or right response.
pub fn judge_response(s: Sizes, responses: usize, number: usize) -> Result<(), Refusal>
    ensures { result ≡ verdict_of (number_lines s (responses_fit s responses) number) }
{
    let sizes = AllowedSizes::of(s)?;
    allow(sizes.responses_fit(responses), Refusal::ShortLists)?;
    judge_below(s, number)
}

// For a measurement's six neighbours.
pub fn judge_neighbours(s: Sizes, neighbours: usize, number: usize) -> Result<(), Refusal>
    ensures { result ≡ verdict_of (number_lines s (neighbours_fit s neighbours) number) }
{
    let sizes = AllowedSizes::of(s)?;
    allow(sizes.neighbours_fit(neighbours), Refusal::ShortLists)?;
    judge_below(s, number)
}

// For max_delay.
pub fn judge_rate(rate: f32) -> Result<(), Refusal>
    ensures { result ≡ verdict_of (rate_lines rate) }
{
    allow(rate_ok(rate), Refusal::BadRate)
}

// For a conversion from the kind: whole triplets only.
pub fn judge_values(kind: u32, values: &[f32]) -> Result<(), Refusal>
    ensures { result ≡ verdict_of (value_lines kind values.now) }
{
    judge_positions(kind, &values[..values.len() - values.len() % 3])
}
