// Positions from Cartesian x, y, z to azimuth, elevation in degrees and radius, and back: one triplet, and lent
// lists in place. x is ahead, y to the left, z up, in metres; azimuth is 0 ahead and 90 to the left, elevation 0 level, 90 up and -90 down.
//
// specs/Coords.antt has each step as document 01 and the source have it, rounded at each operation;
// specs/Arrays.antt says what a list holds after a conversion. `turn_of` and `along` are the halves of
// `spherical_to_cartesian`: a search that keeps one angle works out its sine and cosine once.
//
// proofs/Radii.antt: the radius of a point without a NaN is not negative (`radius_nonneg`).
// specs/Moderate.antt: coordinates of magnitude at most 10001. proofs/Places.antt: a converted list,
// place by place. The crate `coord_laws`: a converted position whose radius was
// allowed has coordinates of magnitude at most 10001, and no angle of an allowed conversion is refused.
#![tactic(auto)]

ghost use Rattle.std.specs.Prelude.{◌≡◌, true};
ghost use Rattle.std.specs.Float.{binary32};
ghost use Rattle.std.specs.Float.Ieee.{rem, lt};
ghost use Rattle.floats.specs.Floats.{zero32};
ghost use Rattle.points.specs.Points.{point_at, listed};
ghost use Rattle.coords.specs.Coords.{full32, two_turns, turn_of, along_of, cartesian_of, radius_of, spherical_of};
ghost use Rattle.coords.specs.Arrays.{laid, lifted, turned, by_triplets, converted_as, convert_of};

use points::Point3;
use refusals::Refusal;

// Azimuth and elevation in degrees.
// No `Point3`, though it is three floats too: neither passes for the other.
#[derive(Clone, Copy)]
pub struct Spherical {
    pub azimuth: f32,
    pub elevation: f32,
    pub radius: f32,
}

// How a list holds it: azimuth, elevation, radius.
impl From<[f32; 3]> for Spherical {
    ghost from_gives = { λ xs s. s ≡ lifted (point_at xs 0) };

    #[tactic(auto, unfolding(points::specs::Points::point_at))]
    fn from(values: [f32; 3]) -> Spherical {
        let [azimuth, elevation, radius] = values;
        Spherical {
            azimuth,
            elevation,
            radius,
        }
    }
}

impl From<Spherical> for [f32; 3] {
    ghost from_gives = { λ s xs. xs ≡ listed (laid s) };

    fn from(s: Spherical) -> [f32; 3] {
        [s.azimuth, s.elevation, s.radius]
    }
}

// The sine and cosine of an angle.
#[derive(Clone, Copy)]
pub struct Turn {
    pub sin: f32,
    pub cos: f32,
}

#[tactic(auto, unfolding(crate::specs::Coords::turn_of))]
pub fn turn_of(degrees: f32) -> Turn
    ensures { result ≡ turn_of degrees }
{
    let a = degrees * (3.1415927 / 180.0);
    Turn {
        sin: angles::sin(a),
        cos: angles::cos(a),
    }
}

// The point at a radius, by its azimuth and elevation.
#[tactic(auto, unfolding(crate::specs::Coords::along_of))]
pub fn along(phi: Turn, theta: Turn, radius: f32) -> Point3
    ensures { result ≡ along_of phi theta radius }
{
    let horizontal = theta.cos * radius;
    Point3 {
        x: phi.cos * horizontal,
        y: phi.sin * horizontal,
        z: theta.sin * radius,
    }
}

// This and its way back round, so they are functions and no `From`.
#[tactic(auto, unfolding(crate::specs::Coords::cartesian_of))]
pub fn spherical_to_cartesian(s: Spherical) -> Point3
    ensures { result ≡ cartesian_of s }
{
    along(turn_of(s.azimuth), turn_of(s.elevation), s.radius)
}

// The distance from the origin.
#[tactic(auto, unfolding(crate::specs::Coords::radius_of))]
pub fn radius(p: Point3) -> f32
    ensures { result ≡ radius_of p }
{
    root::root(p.x * p.x + p.y * p.y + p.z * p.z)
}

// y % 360 of a y above 0 and below 720, which is less than two turns. `%` itself would ask for the C library's fmodf, and for one that not every host has.
fn below_turn(y: f32) -> f32
    requires { (lt zero32 y ≡ true) × (lt y two_turns ≡ true) }
    ensures { result ≡ rem binary32 y full32 }
{
    if y < 360.0 { y } else { y - 360.0 }
}

pub fn cartesian_to_spherical(p: Point3) -> Spherical
    ensures { result ≡ spherical_of p }
{
    let q = 180.0 / 3.1415927;
    let phi = angles::atan2(p.y, p.x);
    let theta = angles::atan2(p.z, root::root(p.x * p.x + p.y * p.y));
    Spherical {
        azimuth: below_turn(phi * q + 360.0),
        elevation: theta * q,
        radius: radius(p),
    }
}

// Three values of one kind as the other: 0 comes from cartesian, 1 from spherical. Kinds are numbers, as document 01 has them.
#[tactic(auto, unfolding(crate::specs::Arrays::turned))]
fn turn_triplet(kind: u32, values: [f32; 3]) -> [f32; 3]
    ensures { result ≡ listed (turned kind (point_at values 0)) }
{
    match kind {
        0 => cartesian_to_spherical(values.into()).into(),
        _ => spherical_to_cartesian(values.into()).into(),
    }
}

// Each whole triplet of a list from its kind to the other, unchecked: a load's own list goes by this.
// By places, and not by `chunks_mut`, of whose writes a proof knows nothing.
pub fn convert_triplets(kind: u32, values: &mut [f32])
    ensures { values.new ≡ by_triplets (turned kind) values.old }
{
    for place in 0..values.len() / 3 {
        let at = 3 * place;
        let triplet = [values[at], values[at + 1], values[at + 2]];
        values[at..at + 3].copy_from_slice(&turn_triplet(kind, triplet));
    }
}

fn convert_array(kind: u32, values: &mut [f32]) -> Result<(), Refusal>
    ensures { converted_as result values.new ≡ convert_of kind values.old }
{
    limits::judge_values(kind, values)?;
    convert_triplets(kind, values);
    Ok(())
}

// Every whole triplet is checked first: refused, nothing is written. Values left over are neither read nor
// written. Two names, one for each kind, as hosts call them.
pub fn convert_array_to_spherical(values: &mut [f32]) -> Result<(), Refusal>
    ensures { converted_as result values.new ≡ convert_of 0 values.old }
{
    convert_array(0, values)
}

pub fn convert_array_to_cartesian(values: &mut [f32]) -> Result<(), Refusal>
    ensures { converted_as result values.new ≡ convert_of 1 values.old }
{
    convert_array(1, values)
}
