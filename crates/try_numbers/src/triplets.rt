// Single triplets of odd values, and lent lists of every length from 0 to 9 inside a longer one.
use crate::{calls, show};
use coords::Spherical;
use points::Point3;
use refusals::Refusal;

fn point(p: Point3) {
    show::hex3(p.x, p.y, p.z);
}

// A point's radius, its spherical triplet, and that one taken back.
fn there_and_back(x: u32, y: u32, z: u32) {
    let p = calls::point(x, y, z);
    let s = coords::cartesian_to_spherical(p);
    show::word(b"cartesian");
    point(p);
    show::word(b" radius");
    show::hex(coords::radius(p));
    show::word(b" spherical");
    show::hex3(s.azimuth, s.elevation, s.radius);
    show::word(b" back");
    point(coords::spherical_to_cartesian(s));
    show::end();
}

fn points_tried() {
    there_and_back(0x0000_0000, 0x0000_0000, 0x0000_0000);
    there_and_back(0x8000_0000, 0x8000_0000, 0x8000_0000);
    there_and_back(0x3f80_0000, 0x0000_0000, 0x0000_0000);
    there_and_back(0xbf80_0000, 0x0000_0000, 0x0000_0000);
    there_and_back(0xbf80_0000, 0x8000_0000, 0x0000_0000);
    there_and_back(0x0000_0000, 0x3f80_0000, 0x0000_0000);
    there_and_back(0x0000_0000, 0xbf80_0000, 0x0000_0000);
    there_and_back(0x0000_0000, 0x0000_0000, 0xbf80_0000);
    there_and_back(0x0000_0001, 0x0000_0001, 0x8000_0001);
    there_and_back(0x461c_4000, 0xc61c_4000, 0x461c_4000);
    there_and_back(0x7f61_b1e6, 0x0000_0000, 0x0000_0000);
    there_and_back(0x7f80_0000, 0x3f80_0000, 0x0000_0000);
    there_and_back(0x7fc0_0000, 0x3f80_0000, 0x3f80_0000);
}

fn spherical(azimuth: u32, elevation: u32, radius: u32) {
    let s = Spherical {
        azimuth: floats::value(azimuth),
        elevation: floats::value(elevation),
        radius: floats::value(radius),
    };
    show::word(b"spherical");
    show::hex3(s.azimuth, s.elevation, s.radius);
    show::word(b" cartesian");
    point(coords::spherical_to_cartesian(s));
    show::end();
}

fn directions_tried() {
    spherical(0x0000_0000, 0x0000_0000, 0x3f80_0000);
    spherical(0x42b4_0000, 0x0000_0000, 0x3f80_0000);
    spherical(0x4334_0000, 0x4234_0000, 0x3f80_0000);
    spherical(0x4434_0000, 0xc434_0000, 0x461c_4000);
    spherical(0x0000_0001, 0x8000_0001, 0x0000_0001);
    spherical(0x4234_0000, 0x4234_0000, 0x8000_0000);
    spherical(0x7fc0_0000, 0x7f80_0000, 0x3f80_0000);
    spherical(0x4234_0000, 0x4234_0000, 0x7fc0_0000);
}

// The length, the verdict, and the whole of the longer list.
fn row(name: &[u8], n: usize, v: Result<(), Refusal>, xs: &[f32]) {
    show::word(name);
    show::decimal(n);
    show::all(xs);
    show::verdict(v);
}

// The first n of the list are lent.
fn convert_first<F: FnOnce(&mut [f32]) -> Result<(), Refusal>>(
    name: &[u8],
    xs: &mut [f32],
    n: usize,
    convert: F,
)
    requires { F.IsAlwaysCallable convert }
{
    if xs.len() < n {
        return;
    }
    let v = convert(&mut xs[..n]);
    row(name, n, v, xs);
}

// Every length, each time from the whole list anew.
fn lists<F: Fn(&mut [f32]) -> Result<(), Refusal>>(name: &[u8], whole: [f32; 10], convert: F)
    requires { F.IsAlwaysCallable convert }
{
    for n in 0..10 {
        let mut xs = whole;
        convert_first(name, &mut xs, n, &convert);
    }
}

// The value at 7 is not allowed: it is met at length 9, and left over at 8. The one at 9 is never lent.
fn lists_tried() {
    lists(
        b"to spherical",
        [1.0, 1.0, 1.0, -1.0, 0.5, -0.0, 2.0, 10000.5, 0.0, -7.0],
        coords::convert_array_to_spherical,
    );
    lists(
        b"to cartesian",
        [
            90.0, 0.0, 1.0, 720.0, -45.0, 10000.0, -0.0, 721.0, 0.0, -7.0,
        ],
        coords::convert_array_to_cartesian,
    );
}

pub fn tries() {
    points_tried();
    directions_tried();
    lists_tried();
}
