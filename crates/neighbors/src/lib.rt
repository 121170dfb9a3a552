// The six neighbours of each measurement, by steps in six directions: neighbors.rs over lent lists.
//
// `search_direction` promises the first found number other than the measurement's own, or that no step before the end gives one
// (`direction_of`, specs/Neighbors.antt); `find_neighbors` writes the six of one measurement, 65535 for absent, `fill_neighbors` those
// of all, 6m entries and nothing past them (`table_of`). The definitions take each step's sine and cosine anew; the code takes those of
// an angle that stays fixed once a search, and proofs/Fixed.antt says why that is the same bit for bit.
//
// The definitions also search the tree anew at each step (`locate_of`). But most steps end close to the measurement that they start from:
// at itself, or at one beside it. So `fill_neighbors` first takes its clearing (crate `clearing`): an open box around it, and the places
// of all others that stand in the box. Where a step leads so deep into the box that the nearest of these is nearer than every face,
// `locate` answers that one and leaves the search out; where it does not, or two are as near, it searches. That this answers what
// the search would is `found_by` (proofs/Around.antt), of a clearing that `Surrounds` its measurement (specs/Built.antt). Over links that
// were built (`BuiltBy`) each clearing does: `surrounds`, there too, by the theorem `alone_found` of the crate `clearing_laws`.
//
// The crate `neighbor_laws` has what this means for a set that was loaded: no entry is refused, so a load never says 9, and each
// is absent or the number of another measurement.
#![tactic(auto)]

ghost use Rattle.std.specs.Prelude.{◌≡◌, ◌+◌, ◌*◌, ◌<◌, ◌≤◌, ◌&&◌, length, if◌then◌else◌, nat_lt};
ghost use Rattle.std.specs.Float.Ieee.{eq};
ghost use Rattle.floats.specs.Floats.{zero32};
ghost use Rattle.coords.specs.Coords.{turn_of};
ghost use Rattle.lookup.specs.Lookup.{locate_of};
ghost use Rattle.neighbors.specs.Neighbors.{after, moved, leaves, steps, step_of, cap_of, passed_on, direction_of, tabled_as, row_of, table_of};
ghost use Rattle.neighbors.specs.Built.{Surrounds, BuiltBy};

use clearing::Clearing;
use coords::{Spherical, Turn};
use kdtree::Tree;
use lookup::{Located, Lookup};
use points::Point3;
use refusals::Refusal;

// How far a step leads: in azimuth or elevation, in degrees, and in radius.
#[derive(Clone, Copy)]
pub struct Steps {
    pub angle: f32,
    pub radius: f32,
}

// What the steps of one direction come to: another measurement, none, or a refusal: a named outcome of three (docs/DECISIONS.md).
#[derive(Clone, Copy)]
pub enum Reached {
    At(u16),
    Absent,
    Refused(Refusal),
}

#[tactic(auto, unfolding(crate::specs::Neighbors::after))]
fn after_steps(v: f32, step: f32, s: u32) -> f32
    ensures { result ≡ after v step s }
{
    v + step * std::num::nearest_u32_to_f32(s)
}

// Where s steps lead.
fn step_to(from: Spherical, step: Spherical, s: u32) -> Spherical
    ensures { result ≡ moved from step s }
{
    let elevation = after_steps(from.elevation, step.elevation, s);
    Spherical {
        azimuth: after_steps(from.azimuth, step.azimuth, s),
        elevation: floats::clamp(elevation, -90.0, 90.0),
        radius: floats::max(after_steps(from.radius, step.radius, s), 0.001),
    }
}

// The radius has left the measured ones by more than a step.
#[tactic(auto, unfolding(crate::specs::Neighbors::leaves))]
fn has_left(look: Lookup, step: f32, radius: f32) -> bool
    ensures { result ≡ leaves look step radius }
{
    let size = floats::abs(step);
    (radius < look.radius_min - size) | (radius > look.radius_max + size)
}

// The sine and cosine of the angle that a step came to; one that stays fixed is as it was at the step before.
fn turn_at(before: Turn, step: f32, i: u32, degrees: f32) -> Turn
    ensures { result ≡ (if nat_lt 0 i && eq step zero32 then before else turn_of degrees) }
{
    if (0 < i) & (step == 0.0) {
        before
    } else {
        coords::turn_of(degrees)
    }
}

// A step's answer as that of its direction.
impl From<Located> for Reached {
    ghost from_gives = { λ found reached. reached ≡ passed_on found };

    fn from(found: Located) -> Reached {
        match found {
            Located::At(n) => Reached::At(n),
            Located::Refused(refusal) => Reached::Refused(refusal),
        }
    }
}

// The six directions, in the order of a measurement's entries of the table.
#[derive(Clone, Copy)]
enum Direction {
    AzimuthUp,
    AzimuthDown,
    ElevationUp,
    ElevationDown,
    RadiusUp,
    RadiusDown,
}

const DIRECTIONS: [Direction; 6] = [
    Direction::AzimuthUp,
    Direction::AzimuthDown,
    Direction::ElevationUp,
    Direction::ElevationDown,
    Direction::RadiusUp,
    Direction::RadiusDown,
];

impl Direction {
    ghost use Rattle.neighbors.specs.Directions.{number_of};

    // Azimuth +, −, elevation +, −, radius +, −.
    #[tactic(auto, unfolding(crate::specs::Neighbors::step_of))]
    fn step(self, steps: Steps) -> Spherical
        ensures { result ≡ step_of (number_of self) steps.angle steps.radius }
    {
        match self {
            Direction::AzimuthUp => spherical(steps.angle, 0.0, 0.0),
            Direction::AzimuthDown => spherical(-steps.angle, 0.0, 0.0),
            Direction::ElevationUp => spherical(0.0, steps.angle, 0.0),
            Direction::ElevationDown => spherical(0.0, -steps.angle, 0.0),
            Direction::RadiusUp => spherical(0.0, 0.0, steps.radius),
            Direction::RadiusDown => spherical(0.0, 0.0, -steps.radius),
        }
    }

    // 45 degrees are reached and, where the step does not divide them, passed.
    #[tactic(auto, unfolding(crate::specs::Neighbors::cap_of, crate::specs::Neighbors::angle_cap))]
    fn max_steps(self, steps: Steps) -> u32
        ensures { result ≡ cap_of (number_of self) steps.angle }
    {
        match self {
            Direction::RadiusUp | Direction::RadiusDown => 100,
            _ => floats::ceil(45.0 / steps.angle),
        }
    }
}

fn spherical(azimuth: f32, elevation: f32, radius: f32) -> Spherical
    ensures { result ≡ steps azimuth elevation radius }
{
    Spherical {
        azimuth,
        elevation,
        radius,
    }
}

// What the search around one measurement goes by: the set, the measurement's number, and a clearing that surrounds it.
#[derive(Clone, Copy)]
struct Surroundings<'a> {
    look: Lookup,
    tree: Tree<'a>,
    own: u16,
    around: Clearing,
    ghost one_of_all: { own < tree.count },
    ghost surrounded: { Surrounds look tree.count tree.positions.now tree.left.now tree.right.now own around },
}

impl Surroundings<'_> {
    // The measurement nearest to q. Most steps lead to no place that the clearing of their own does not reach: where q lies so deep in it
    // that none outside can be nearer than the nearest of those in it, no search is wanted.
    fn locate(&self, q: Point3) -> Located
        ensures { result
            ≡ locate_of self.now.look self.now.tree.count self.now.tree.positions.now self.now.tree.left.now self.now.tree.right.now q }
    {
        let tree = &self.tree;
        let p = self.look.normalize_radius(q);
        let own = self.own as usize;
        let found = clearing::nearest_in(tree.count, tree.positions, own, self.around, p);
        let place = found.place;
        let here = points::point_at(tree.positions, place);
        let root = points::point_at(tree.positions, 0);
        if !found.tied & clearing::alone(self.around.faces, place, here, root, p) {
            return Located::At(place as u16);
        }
        self.look.nearest(&self.tree, p)
    }

    // The first found number other than its own.
    fn search_direction(&self, from: Spherical, step: Spherical, cap: u32) -> Reached
        ensures { result
            ≡ direction_of self.now.look self.now.tree.count self.now.tree.positions.now self.now.tree.left.now self.now.tree.right.now self.now.own from step cap }
    {
        let mut phi = Turn { sin: 0.0, cos: 1.0 };
        let mut theta = phi;
        for i in 0..cap {
            let there = step_to(from, step, i + 1);
            if has_left(self.look, step.radius, there.radius) {
                return Reached::Absent;
            }
            phi = turn_at(phi, step.azimuth, i, there.azimuth);
            theta = turn_at(theta, step.elevation, i, there.elevation);
            let q = coords::along(phi, theta, there.radius);
            let found = self.locate(q);
            let Located::At(n) = found else {
                return found.into();
            };
            if n != self.own {
                return Reached::At(n);
            }
        }
        Reached::Absent
    }

    // Writes the six neighbours of the measurement; a refusal ends it.
    fn find_neighbors(&self, steps: Steps, neighbours: &mut [u16]) -> Result<(), Refusal>
        requires { 6 * self.now.tree.count ≤ length neighbours.old }
        ensures { tabled_as result neighbours.new
            ≡ row_of self.now.look self.now.tree.count self.now.tree.positions.now self.now.tree.left.now self.now.tree.right.now steps.angle steps.radius self.now.own neighbours.old }
    {
        let own = self.own as usize;
        let from = coords::cartesian_to_spherical(points::point_at(self.tree.positions, own));
        for direction in DIRECTIONS {
            let step = direction.step(steps);
            let cap = direction.max_steps(steps);
            let found = self.search_direction(from, step, cap);
            let entry = match found {
                Reached::At(n) => n,
                Reached::Absent => 65535,
                Reached::Refused(refusal) => return Err(refusal),
            };
            neighbours[6 * own + direction as usize] = entry;
        }
        Ok(())
    }
}

// The table of all measurements, over links that were built; a refusal ends it, which such links never meet.
pub fn fill_neighbors(
    look: Lookup,
    tree: &Tree,
    steps: Steps,
    neighbours: &mut [u16],
) -> Result<(), Refusal>
    requires { (6 * tree.now.count ≤ length neighbours.old)
        × BuiltBy look tree.now.count tree.now.positions.now tree.now.left.now tree.now.right.now }
    ensures { tabled_as result neighbours.new
        ≡ table_of look tree.now.count tree.now.positions.now tree.now.left.now tree.now.right.now steps.angle steps.radius neighbours.old }
{
    let arc = look.radius_max * steps.angle * 0.017453292;
    let mut reach = look.radius_max;
    for i in 0..tree.count {
        let around = clearing::clear(tree, i, reach, arc);
        reach = clearing::reach_after(reach, arc, around.count);
        let surroundings = Surroundings {
            look,
            tree: *tree,
            own: i as u16,
            around,
        };
        surroundings.find_neighbors(steps, neighbours)?;
    }
    Ok(())
}
