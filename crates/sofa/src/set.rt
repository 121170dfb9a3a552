// A set for hosts: crates `loads`'s, `lookup`'s and `reader`'s calls, their promises carried across by specs/Set.antt. Arguments stand one by one, and
// structs are of plain numbers, since that is the C interface.
ghost use Rattle.std.specs.Prelude.{◌≡◌, length};
ghost use Rattle.lookup.specs.Lookup.{find_of, find_mut_of};
ghost use Rattle.loads.specs.Load.{work_of, load_of};
ghost use Rattle.reader.specs.Queries.{filter_says, plain_says, number_says};
ghost use Rattle.stored.specs.Numbers.{part_of, around_of};
ghost use Rattle.stored.specs.Longest.{max_delay_of};
ghost use Rattle.sofa.specs.Tree.{point};
ghost use Rattle.sofa.specs.Set.{located_as, loaded_as, filtered_as, part_as, around_as, longest_as, loaded_by, load_told, moved_by, move_told, filtered_by, filter_told};

use crate::SofaValue;
use crate::convert::SofaRefusal;
use crate::tree::{NO_BOX, SofaFound};
use delays::{Outcome, Seconds};
use limits::Sizes;
use lookup::{Located, Lookup};
use points::Point3;
use reader::{Recorded, Set};
use refusals::Refusal;
use stored::{Ear, Entries, Taps};

#[repr(C)]
#[derive(Clone, Copy)]
pub struct SofaLoaded {
    pub reason: u32,
    pub place: usize,
    pub lookup: Lookup,
}

// Blended is 1 or 0.
#[repr(C)]
#[derive(Clone, Copy)]
pub struct SofaFiltered {
    pub reason: u32,
    pub place: usize,
    pub blended: u32,
    pub points: usize,
    pub ldelay: f32,
    pub rdelay: f32,
}

#[repr(C)]
#[derive(Clone, Copy)]
pub struct SofaPart {
    pub reason: u32,
    pub place: usize,
    pub start: usize,
    pub count: usize,
}

#[repr(C)]
#[derive(Clone, Copy)]
pub struct SofaNeighbors {
    pub reason: u32,
    pub place: usize,
    pub phi_plus: u16,
    pub phi_minus: u16,
    pub theta_plus: u16,
    pub theta_minus: u16,
    pub radius_plus: u16,
    pub radius_minus: u16,
}

// ---- load and find

const NO_LOOKUP: Lookup = Lookup {
    bounds: NO_BOX,
    phi_min: 0.0,
    phi_max: 0.0,
    theta_min: 0.0,
    theta_max: 0.0,
    radius_min: 0.0,
    radius_max: 0.0,
};

impl From<Result<Lookup, Refusal>> for SofaLoaded {
    ghost from_gives = { λ answer r. r ≡ loaded_as answer };

    fn from(answer: Result<Lookup, Refusal>) -> Self {
        let SofaRefusal { reason, place } = answer.into();
        SofaLoaded {
            reason,
            place,
            lookup: answer.unwrap_or(NO_LOOKUP),
        }
    }
}

impl From<Located> for SofaFound {
    ghost from_gives = { λ found r. r ≡ located_as found };

    fn from(found: Located) -> Self {
        let number: Result<Option<u16>, Refusal> = match found {
            Located::At(number) => Ok(Some(number)),
            Located::Refused(refusal) => Err(refusal),
        };
        number.into()
    }
}

pub fn sofa_load(
    kind: u32,
    sizes: Sizes,
    positions: &[f32],
    responses: &[f32],
    angle_step: f32,
    radius_step: f32,
    rate: f32,
    left: &mut [u16],
    right: &mut [u16],
    neighbours: &mut [u16],
    cartesian: &mut [f32],
) -> SofaLoaded
    ensures { loaded_by result (work_of left.new right.new neighbours.new cartesian.new)
        ≡ load_told (load_of kind sizes positions.now (length responses.now) angle_step radius_step rate
        (work_of left.old right.old neighbours.old cartesian.old)) }
{
    loads::load(
        kind,
        sizes,
        positions,
        responses,
        angle_step,
        radius_step,
        rate,
        left,
        right,
        neighbours,
        cartesian,
    )
    .into()
}

pub fn sofa_find(
    sizes: Sizes,
    look: Lookup,
    cartesian: &[f32],
    left: &[u16],
    right: &[u16],
    x: f32,
    y: f32,
    z: f32,
) -> SofaFound
    ensures { result ≡ located_as (find_of look sizes cartesian.now left.now right.now (point x y z)) }
{
    let q = Point3 { x, y, z };
    look.find(sizes, cartesian, left, right, q).into()
}

pub fn sofa_find_mut(
    sizes: Sizes,
    look: Lookup,
    cartesian: &[f32],
    left: &[u16],
    right: &[u16],
    coordinate: &mut [f32; 3],
) -> SofaFound
    ensures { moved_by result coordinate.new ≡ move_told (find_mut_of look sizes cartesian.now left.now right.now coordinate.old) }
{
    look.find_mut(sizes, cartesian, left, right, coordinate)
        .into()
}

// ---- filters

impl From<Outcome> for SofaFiltered {
    ghost from_gives = { λ outcome r. r ≡ filtered_as outcome };

    fn from(outcome: Outcome) -> Self {
        let told = delays::answer_of(outcome);
        SofaFiltered {
            reason: told.reason,
            place: told.place,
            blended: u32::from(told.blended),
            points: told.points,
            ldelay: told.left.0,
            rdelay: told.right.0,
        }
    }
}

// The set is put together in both filters: a function for it would take the same eight arguments again.
pub fn sofa_filter(
    sizes: Sizes,
    look: Lookup,
    cartesian: &[f32],
    left: &[u16],
    right: &[u16],
    neighbours: &[u16],
    responses: &[f32],
    delays: &[f32],
    rate: f32,
    x: f32,
    y: f32,
    z: f32,
    out_left: &mut [f32],
    out_right: &mut [f32],
) -> SofaFiltered
    ensures { filtered_by result out_left.new out_right.new
        ≡ filter_told (filter_says sizes look cartesian.now left.now right.now neighbours.now responses.now delays.now rate
        (point x y z) (length out_left.old) (length out_right.old)) }
{
    let q = Point3 { x, y, z };
    let set = Set {
        recorded: Recorded {
            sizes,
            responses,
            delays,
            rate,
        },
        look,
        cartesian,
        left,
        right,
    };
    set.filter(neighbours, q, out_left, out_right).into()
}

pub fn sofa_filter_nointerp(
    sizes: Sizes,
    look: Lookup,
    cartesian: &[f32],
    left: &[u16],
    right: &[u16],
    responses: &[f32],
    delays: &[f32],
    rate: f32,
    x: f32,
    y: f32,
    z: f32,
    out_left: &mut [f32],
    out_right: &mut [f32],
) -> SofaFiltered
    ensures { filtered_by result out_left.new out_right.new
        ≡ filter_told (plain_says sizes look cartesian.now left.now right.now responses.now delays.now rate
        (point x y z) (length out_left.old) (length out_right.old)) }
{
    let q = Point3 { x, y, z };
    let set = Set {
        recorded: Recorded {
            sizes,
            responses,
            delays,
            rate,
        },
        look,
        cartesian,
        left,
        right,
    };
    set.filter_nointerp(q, out_left, out_right).into()
}

pub fn sofa_filter_number(
    sizes: Sizes,
    responses: &[f32],
    delays: &[f32],
    rate: f32,
    number: usize,
    out_left: &mut [f32],
    out_right: &mut [f32],
) -> SofaFiltered
    ensures { filtered_by result out_left.new out_right.new
        ≡ filter_told (number_says sizes responses.now delays.now rate number (length out_left.old) (length out_right.old)) }
{
    let recorded = Recorded {
        sizes,
        responses,
        delays,
        rate,
    };
    recorded.filter_number(number, out_left, out_right).into()
}

// ---- a measurement by its number, and the longest delay

impl From<Result<Taps, Refusal>> for SofaPart {
    ghost from_gives = { λ part r. r ≡ part_as part };

    fn from(part: Result<Taps, Refusal>) -> Self {
        let SofaRefusal { reason, place } = part.into();
        let Taps { start, count } = part.unwrap_or(Taps { start: 0, count: 0 });
        SofaPart {
            reason,
            place,
            start,
            count,
        }
    }
}

// Two functions, since each name is exported to C.
pub fn sofa_left_response(sizes: Sizes, responses: &[f32], number: usize) -> SofaPart
    ensures { result ≡ part_as (part_of sizes (length responses.now) number 0) }
{
    stored::part_of(sizes, responses.len(), number, Ear::Left).into()
}

pub fn sofa_right_response(sizes: Sizes, responses: &[f32], number: usize) -> SofaPart
    ensures { result ≡ part_as (part_of sizes (length responses.now) number 1) }
{
    stored::part_of(sizes, responses.len(), number, Ear::Right).into()
}

const NO_ENTRIES: Entries = Entries {
    phi_plus: 65535,
    phi_minus: 65535,
    theta_plus: 65535,
    theta_minus: 65535,
    radius_plus: 65535,
    radius_minus: 65535,
};

impl From<Result<Entries, Refusal>> for SofaNeighbors {
    ghost from_gives = { λ around r. r ≡ around_as around };

    fn from(around: Result<Entries, Refusal>) -> Self {
        let SofaRefusal { reason, place } = around.into();
        let six = around.unwrap_or(NO_ENTRIES);
        SofaNeighbors {
            reason,
            place,
            phi_plus: six.phi_plus,
            phi_minus: six.phi_minus,
            theta_plus: six.theta_plus,
            theta_minus: six.theta_minus,
            radius_plus: six.radius_plus,
            radius_minus: six.radius_minus,
        }
    }
}

pub fn sofa_neighbors_of(sizes: Sizes, neighbours: &[u16], number: usize) -> SofaNeighbors
    ensures { result ≡ around_as (around_of sizes neighbours.now number) }
{
    stored::neighbors_of(sizes, neighbours, number).into()
}

impl From<Result<Seconds, Refusal>> for SofaValue {
    ghost from_gives = { λ longest v. v ≡ longest_as longest };

    fn from(longest: Result<Seconds, Refusal>) -> Self {
        longest.map(|seconds| seconds.0).into()
    }
}

pub fn sofa_max_delay(delays: &[f32], rate: f32) -> SofaValue
    ensures { result ≡ longest_as (max_delay_of delays.now rate) }
{
    stored::max_delay(delays, rate).into()
}
