// A point of three f32, how a lent list holds points (x, y, z, one after the other), and the squared distance of two points.
//
// The definitions are `point_at`, `listed` and `dist_sq_of` (specs/Points.antt). The type is the source's Point3, with named coordinates.
// An array of three is a point, and back, by `From`.
#![tactic(auto)]

ghost use Rattle.std.specs.Prelude.{◌≡◌, ◌+◌, ◌*◌, ◌<◌, length};
ghost use Rattle.points.specs.Points.{point_at, listed, dist_sq_of};

#[derive(Clone, Copy)]
pub struct Point3 {
    pub x: f32,
    pub y: f32,
    pub z: f32,
}

// x, y, z in this order, both ways.
impl From<[f32; 3]> for Point3 {
    ghost from_gives = { λ xs p. p ≡ point_at xs 0 };

    #[tactic(auto, unfolding(crate::specs::Points::point_at))]
    fn from(xs: [f32; 3]) -> Point3 {
        let [x, y, z] = xs;
        Point3 { x, y, z }
    }
}

impl From<Point3> for [f32; 3] {
    ghost from_gives = { λ p xs. xs ≡ listed p };

    fn from(p: Point3) -> [f32; 3] {
        [p.x, p.y, p.z]
    }
}

// The point at a place of the list.
// That a place lies in the list is asked at each read, as of any index: a type of list and place would say no more.
#[tactic(auto, unfolding(crate::specs::Points::point_at))]
pub fn point_at(xs: &[f32], place: usize) -> Point3
    requires { 3 * place + 2 < length xs.now }
    ensures { result ≡ point_at xs.now place }
{
    let at = 3 * place;
    Point3 {
        x: xs[at],
        y: xs[at + 1],
        z: xs[at + 2],
    }
}

// (dx * dx + dy * dy) + dz * dz, rounded at each operation.
#[tactic(auto, unfolding(crate::specs::Points::dist_sq_of))]
pub fn dist_sq(a: Point3, b: Point3) -> f32
    ensures { result ≡ dist_sq_of a b }
{
    let dx = a.x - b.x;
    let dy = a.y - b.y;
    let dz = a.z - b.z;
    (dx * dx + dy * dy) + dz * dz
}
