// The filter at a query whose nearest measurement is known: the blend of that measurement and the closer one of each pair of its neighbours, by
// inverse distance, or its plain filter.
//
// `interpolate_of` and `extract_of` (specs/Blend.antt) say for every input what is answered and what both outputs then hold, sample by sample.
// An entry of the neighbour table is a named outcome (`Entry`), opened where it is met: a bad one leaves at once (`BadEntry`), with its refusal.
// The query is measured as given, never drawn to the measured radii. What is blended of each ear is crate `mix`'s; laws of the weights are
// crate `interpolate_laws`'s.
#![tactic(auto)]

ghost use Rattle.std.specs.Prelude.{◌≡◌, ◌&&◌, [], ◌∷◌, ◌++◌, map, ℕ, ◌+◌, ◌*◌, ◌≤◌, ◌<◌, length};
ghost use Rattle.floats.specs.Floats.{zero32};
ghost use Rattle.mix.specs.Mix.{receiver_of, sums, list_of, Sized, Placed};
ghost use Rattle.refusals.specs.Refusals.{number_of, place_of};
ghost use Rattle.interpolate.specs.Blend.{TableHolds, distance_of, entry_in, bad_beyond, good, least, closer_of, met_if, closest_of, Held, taken, neighbors_of, points_of, all_known, Gathers, total_of, part, stride_of, Leads, AllLead, delay_at, plain_delay, blend_delay, filter_of, extract_of, blend_of, refused_of, interpolate_of};
ghost use Rattle.interpolate.specs.Blend as Blend;

use delays::{Outcome, Samples};
use mix::{Ear, Points, Responses, Share};
use points::Point3;
use refusals::Refusal;

// What a filter goes by: the responses, the delays in samples, by their count, and the rate.
#[derive(Clone, Copy)]
pub struct Filters<'r, 'd> {
    pub responses: Responses<'r>,
    pub delays: &'d [f32],
    pub rate: f32,
}

// What a blend goes by besides: where the measurements are, and the six neighbours of each.
#[derive(Clone, Copy)]
pub struct Measurements<'r, 'd, 't> {
    pub filters: Filters<'r, 'd>,
    pub cartesian: &'t [f32],
    pub neighbours: &'t [u16],
    pub ghost table: { TableHolds filters.responses.m cartesian.now neighbours.now },
}

// An entry of the neighbour table as the blend meets it. One that is neither absent nor a measurement is bad.
// Three named outcomes, and so no `Option`.
#[derive(Clone, Copy)]
pub enum Entry {
    Absent,
    Measured(usize),
    Bad,
}

// An entry was bad.
#[derive(Clone, Copy)]
pub struct BadEntry;

// A measurement, and how far it is.
#[derive(Clone, Copy)]
pub struct Near {
    pub number: usize,
    pub distance: f32,
}

// Where the delay of measurement k stands: at k * times + plus.
#[derive(Clone, Copy)]
pub struct Stride {
    pub times: usize,
    pub plus: usize,
}

// How far measurement k is from the query.
pub fn distance(cartesian: &[f32], k: usize, position: Point3) -> f32
    requires { 3 * k + 2 < length cartesian.now }
    ensures { result ≡ distance_of cartesian.now position k }
{
    root::root(points::dist_sq(points::point_at(cartesian, k), position))
}

// What an entry of the lent list says: 65535 is absent.
fn entry_of(m: usize, k: u16) -> Entry
    ensures { result ≡ entry_in m k }
{
    if k == 65535 {
        return Entry::Absent;
    }
    let n = k as usize;
    if n < m {
        return Entry::Measured(n);
    }
    Entry::Bad
}

// What the next one must be below: the first, below the largest f32.
fn limit(best: Option<Near>) -> f32
    ensures { result ≡ least best }
{
    match best {
        None => 3.4028235e38,
        Some(near) => near.distance,
    }
}

// One point more. Places that are not counted hold measurements too, so that none is tested where places are read.
// By a match on the count, since the four places are fields, as document 01 has them.
fn push(p: Points, s: Share) -> Points
    requires { (1 ≤ p.count)
        × (p.count ≤ 3) }
    ensures { (list_of result ≡ list_of p ++ (s ∷ [])) × (result.count ≡ p.count + 1) × ((m : ℕ) → Placed m p → s.number < m → Placed m result) }
{
    let count = p.count;
    match count {
        1 => Points {
            count: 2,
            b: s,
            ..p
        },
        2 => Points {
            count: 3,
            c: s,
            ..p
        },
        _ => Points {
            count: 4,
            d: s,
            ..p
        },
    }
}

// The closest of a pair, if it is taken.
fn add_closer_neighbor(p: Points, best: Option<Near>) -> Points
    requires { (1 ≤ p.count)
        × (p.count ≤ 3) }
    ensures { (list_of result ≡ list_of p ++ taken best) × (result.count ≤ p.count + 1) × ((m : ℕ) → Placed m p → Held m best → Placed m result) }
{
    let Some(near) = best else {
        return p;
    };
    if 1e-10 < near.distance {
        let s = Share {
            number: near.number,
            weight: 1.0 / near.distance,
        };
        return push(p, s);
    }
    p
}

// The sum of the weights.
// Written out for each count, since the four places are fields, as document 01 has them.
fn total(p: Points) -> f32
    requires { (1 ≤ p.count)
        × (p.count ≤ 4) }
    ensures { result ≡ total_of (list_of p) }
{
    let a = 0.0 + p.a.weight;
    let b = a + p.b.weight;
    let c = b + p.c.weight;
    let count = p.count;
    match count {
        1 => a,
        2 => b,
        3 => c,
        _ => c + p.d.weight,
    }
}

fn share(p: Share, sum: f32) -> Share
    ensures { result ≡ part sum p }
{
    Share {
        number: p.number,
        weight: p.weight / sum,
    }
}

// Each weight divided by the sum.
fn divided(p: Points, sum: f32) -> Points
    ensures { (list_of result ≡ map (part sum) (list_of p)) × ((m : ℕ) → Placed m p → Placed m result) }
{
    let a = share(p.a, sum);
    let b = share(p.b, sum);
    let c = share(p.c, sum);
    let d = share(p.d, sum);
    Points {
        count: p.count,
        a,
        b,
        c,
        d,
    }
}

// By the count of the delays: one per measurement for both ears; per measurement and receiver; the first two for all; none.
fn stride_of(len: usize, m: usize, r: usize, ear: Ear) -> Option<Stride>
    requires { (m ≤ 16384)
        × (r ≤ 8) }
    ensures { result ≡ stride_of len m r (receiver_of ear) }
{
    let plus = ear.receiver();
    if len == m {
        return Some(Stride { times: 1, plus: 0 });
    }
    if m * r <= len {
        return Some(Stride { times: r, plus });
    }
    if r <= len {
        return Some(Stride { times: 0, plus });
    }
    None
}

// Measurement k's delay, where s leads to one.
fn held(delays: &[f32], s: Stride, k: usize) -> f32
    requires { Leads s (length delays.now) k }
    ensures { result ≡ delay_at delays.now s k }
{
    delays[k * s.times + s.plus]
}

// A measurement's delay for an ear.
// Delays and sizes one by one: a method of `Filters` would ask for responses too, and so more of callers.
pub fn plain_delay(delays: &[f32], k: usize, m: usize, r: usize, ear: Ear) -> Samples
    requires { (k < m)
        × (m ≤ 16384)
        × (2 ≤ r)
        × (r ≤ 8) }
    ensures { result ≡ plain_delay delays.now m r (receiver_of ear) k }
{
    let Some(s) = stride_of(delays.len(), m, r, ear) else {
        return Samples(0.0);
    };
    Samples(held(delays, s, k))
}

// The delays of one to four points, weighed and added up.
// Written out for each count, as `total`: the four places are fields.
fn weighed(delays: &[f32], p: Points, s: Stride) -> f32
    requires { (1 ≤ p.count)
        × (p.count ≤ 4)
        × AllLead s (length delays.now) p }
    ensures { result ≡ sums (delay_at delays.now s) zero32 (list_of p) }
{
    let a = 0.0 + held(delays, s, p.a.number) * p.a.weight;
    let b = a + held(delays, s, p.b.number) * p.b.weight;
    let c = b + held(delays, s, p.c.number) * p.c.weight;
    let d = c + held(delays, s, p.d.number) * p.d.weight;
    let count = p.count;
    match count {
        1 => a,
        2 => b,
        3 => c,
        _ => d,
    }
}

// The blended delay for an ear. Where there are no delays nothing is added, so that it is +0 whatever the weights are.
fn blend_delay(delays: &[f32], p: Points, m: usize, r: usize, ear: Ear) -> Samples
    requires { Placed m p
        × (m ≤ 16384)
        × (2 ≤ r)
        × (r ≤ 8) }
    ensures { result ≡ blend_delay delays.now m r (receiver_of ear) (list_of p) }
{
    let Some(s) = stride_of(delays.len(), m, r, ear) else {
        return Samples(0.0);
    };
    Samples(weighed(delays, p, s))
}

// A refusal: every sample of both outputs is +0, those beyond n too.
// Both outputs stand one by one here and below, as the C interface lends them.
pub fn refuse(number: u32, place: usize, left: &mut [f32], right: &mut [f32]) -> Outcome
    ensures { filter_of result left.new right.new ≡ refused_of number place (length left.old) (length right.old) }
{
    mix::silence(left, 0);
    mix::silence(right, 0);
    Outcome::Refused(number, place)
}

// By a refusal's own number and place.
pub fn refuse_by(refusal: Refusal, left: &mut [f32], right: &mut [f32]) -> Outcome
    ensures { filter_of result left.new right.new
        ≡ refused_of (number_of refusal) (place_of refusal) (length left.old) (length right.old) }
{
    refuse(refusal.number(), refusal.place(), left, right)
}

impl<'r, 'd> Filters<'r, 'd> {
    // The nearest measurement's filter, nothing blended: its taps as they are.
    pub fn get_filter_nointerp(
        &self,
        nearest: usize,
        left: &mut [f32],
        right: &mut [f32],
    ) -> Outcome
        requires { nearest < self.now.responses.m }
        ensures { filter_of result left.new right.new
            ≡ extract_of self.now.responses.m self.now.responses.r self.now.responses.n self.now.responses.taps.now
            self.now.delays.now self.now.rate (length left.old) (length right.old) nearest }
    {
        let responses = self.responses;
        responses.copy_ear(nearest, Ear::Left, left);
        responses.copy_ear(nearest, Ear::Right, right);
        let a = plain_delay(self.delays, nearest, responses.m, responses.r, Ear::Left);
        let b = plain_delay(self.delays, nearest, responses.m, responses.r, Ear::Right);
        Outcome::Exact(
            delays::seconds_of(a, self.rate),
            delays::seconds_of(b, self.rate),
        )
    }

    // The points of p, their weights already divided by their sum.
    fn blend(&self, p: Points, left: &mut [f32], right: &mut [f32]) -> Outcome
        requires { Placed self.now.responses.m p }
        ensures { filter_of result left.new right.new
            ≡ blend_of self.now.responses.m self.now.responses.r self.now.responses.n self.now.responses.taps.now
            self.now.delays.now self.now.rate (length left.old) (length right.old) (list_of p) }
    {
        let responses = self.responses;
        responses.blend_ear(p, Ear::Left, left);
        responses.blend_ear(p, Ear::Right, right);
        let a = blend_delay(self.delays, p, responses.m, responses.r, Ear::Left);
        let b = blend_delay(self.delays, p, responses.m, responses.r, Ear::Right);
        Outcome::Blended(
            delays::seconds_of(a, self.rate),
            delays::seconds_of(b, self.rate),
            p.count,
        )
    }
}

// The query stands beside the set, since one set answers many. That a number is below m is asked as of any index.
impl<'r, 'd, 't> Measurements<'r, 'd, 't> {
    // Entry j of measurement k.
    // j is a place in the row of six that C reads: an index, and no kind.
    fn entry_at(&self, k: usize, j: usize) -> Entry
        requires { (j ≤ 5)
            × (k < self.now.filters.responses.m) }
        ensures { result ≡ entry_in self.now.filters.responses.m (Blend.entry self.now.neighbours.now k j) }
    {
        entry_of(self.filters.responses.m, self.neighbours[6 * k + j])
    }

    // Measurement k beside the closest so far: it wins where it is strictly closer.
    fn closer(&self, position: Point3, best: Option<Near>, k: usize) -> Option<Near>
        requires { k < self.now.filters.responses.m }
        ensures { result ≡ closer_of (distance_of self.now.cartesian.now position) best k }
    {
        let d = distance(self.cartesian, k, position);
        if d < limit(best) {
            return Some(Near {
                number: k,
                distance: d,
            });
        }
        best
    }

    // An entry beside the closest so far. Where no measurement is met the closest stays; a bad entry leaves.
    fn meet(&self, position: Point3, best: Option<Near>, e: Entry) -> Result<Option<Near>, BadEntry>
        requires { bad_beyond self.now.filters.responses.m e ≡ e }
        ensures { result ≡ met_if (good e) (Blend.beside (distance_of self.now.cartesian.now position) best e) }
    {
        match e {
            Entry::Absent => Ok(best),
            Entry::Measured(k) => Ok(self.closer(position, best, k)),
            Entry::Bad => Err(BadEntry),
        }
    }

    // The closer of entries j and j + 1 of measurement k, the first on a tie.
    fn closer_neighbor(
        &self,
        position: Point3,
        k: usize,
        j: usize,
    ) -> Result<Option<Near>, BadEntry>
        requires { (j ≤ 4)
            × (k < self.now.filters.responses.m) }
        ensures { result ≡ met_if (Blend.known self.now.filters.responses.m (Blend.entry self.now.neighbours.now k j)
            && Blend.known self.now.filters.responses.m (Blend.entry self.now.neighbours.now k (j + 1)))
            (closest_of (distance_of self.now.cartesian.now position) (Blend.entry self.now.neighbours.now k j)
            (Blend.entry self.now.neighbours.now k (j + 1))) }
    {
        let a = self.entry_at(k, j);
        let first = self.meet(position, None, a)?;
        let b = self.entry_at(k, j + 1);
        self.meet(position, first, b)
    }

    // The points to blend, d being the distance to the nearest.
    fn gather(&self, position: Point3, nearest: usize, d: f32) -> Result<Points, BadEntry>
        requires { (nearest < self.now.filters.responses.m)
            × (d ≡ distance_of self.now.cartesian.now position nearest) }
        ensures { Gathers self.now.filters.responses.m
            (all_known self.now.filters.responses.m (neighbors_of self.now.neighbours.now nearest))
            (points_of (distance_of self.now.cartesian.now position) (neighbors_of self.now.neighbours.now nearest) nearest) result }
    {
        let azimuth = self.closer_neighbor(position, nearest, 0)?;
        let elevation = self.closer_neighbor(position, nearest, 2)?;
        let radius = self.closer_neighbor(position, nearest, 4)?;
        let first = Share {
            number: nearest,
            weight: 1.0 / d,
        };
        let p = Points {
            count: 1,
            a: first,
            b: first,
            c: first,
            d: first,
        };
        let p1 = add_closer_neighbor(p, azimuth);
        let p2 = add_closer_neighbor(p1, elevation);
        Ok(add_closer_neighbor(p2, radius))
    }

    // The filter at a query whose nearest measurement is given. A neighbour entry that is neither absent nor a measurement refuses 9.
    pub fn interpolate(
        &self,
        nearest: usize,
        position: Point3,
        left: &mut [f32],
        right: &mut [f32],
    ) -> Outcome
        requires { nearest < self.now.filters.responses.m }
        ensures { filter_of result left.new right.new
            ≡ interpolate_of self.now.filters.responses.m self.now.filters.responses.r self.now.filters.responses.n
            self.now.filters.responses.taps.now self.now.filters.delays.now self.now.filters.rate (length left.old) (length right.old)
            self.now.cartesian.now self.now.neighbours.now position nearest }
    {
        let filters = self.filters;
        let d = distance(self.cartesian, nearest, position);
        if d < 1e-6 {
            return filters.get_filter_nointerp(nearest, left, right);
        }
        let Ok(p) = self.gather(position, nearest, d) else {
            return refuse_by(Refusal::BadLink, left, right);
        };
        let sum = total(p);
        if sum < 1e-10 {
            return filters.get_filter_nointerp(nearest, left, right);
        }
        filters.blend(divided(p, sum), left, right)
    }
}
