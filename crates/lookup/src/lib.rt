// What a set is looked up by, and the nearest measurement of a query: lookup.rs over lent lists.
//
// `Lookup` is the box of the measured points and their six bounds, by value; the tree's links stand in lent lists, and a measurement's
// number is its place. `Lookup::new` promises the links and the bounds (`build_of`, specs/Build.antt), `normalize_radius` document 01's
// radius clamp (`clamped_by`), `find` and `find_mut` the answer for every input (`find_of`, `find_mut_of`, specs/Lookup.antt); these two
// ask nothing of their caller. `locate` is the inner search of the neighbours and the filters: their callers have checked the lists.
//
// The crate `lookup_laws` has what this means: the clamp's scale and its finite results, and a built tree that equals the bare one
// filled in place order, so that no search over it is refused.
#![tactic(auto)]

ghost use Rattle.std.specs.Prelude.{◌≡◌, ◌+◌, ◌*◌, ◌<◌, ◌≤◌, length};
ghost use Rattle.lookup.specs.Build.{links_of, owned_at, linked, over_both, unmeasured, widened, lookup_of, built_as, build_of};
ghost use Rattle.lookup.specs.Lookup.{scaled, clamped_by, located_by, locate_of, find_of, moved_as, find_mut_of};
ghost use Rattle.kdtree.specs.Tree.{TreeHolds};
ghost use Rattle.kdtree.specs.Nearest.{place_found};

use coords::Spherical;
use kdtree::{BoundingBox, Tree};
use limits::{Sizes, TreeLengths};
use points::Point3;
use refusals::Refusal;

// Azimuth phi and elevation theta in degrees.
#[repr(C)]
#[derive(Clone, Copy)]
pub struct Lookup {
    pub bounds: BoundingBox,
    pub phi_min: f32,
    pub phi_max: f32,
    pub theta_min: f32,
    pub theta_max: f32,
    pub radius_min: f32,
    pub radius_max: f32,
}

// A measurement's number, or what the search says no to. A `Result` would say the same; it is an enum of its own since document 01 wants
// find's answer so, opened by its callers with `let .. else` (docs/DECISIONS.md).
#[derive(Clone, Copy)]
pub enum Located {
    At(u16),
    Refused(Refusal),
}

// The largest f32.
const MAX: f32 = 340282346638528859811704183484516925440.0;

// ---- building

// Links the place n, whose point stands in the list, to the tree of the places before it.
// Lists one by one while links are written: a `Tree` only lends them.
fn link_place(positions: &[f32], left: &mut [u16], right: &mut [u16], n: usize)
    requires { (0 < n)
        × (n < 16384)
        × (3 * n + 2 < length positions.now)
        × (n < length left.old)
        × (n < length right.old) }
    ensures { links_of left.new right.new ≡ owned_at positions.now n (links_of left.old right.old) }
{
    let p = points::point_at(positions, n);
    kdtree::insert_rec(positions, left, right, n, p, 0, 0).link(left, right, n);
}

// Links the first m places in order.
fn link_all(positions: &[f32], left: &mut [u16], right: &mut [u16], m: usize)
    requires { (0 < m)
        × TreeHolds m positions.now left.old right.old }
    ensures { links_of left.new right.new ≡ over_both (linked positions.now m) (links_of left.old right.old) }
{
    left[0] = 65535;
    right[0] = 65535;
    for i in 1..m {
        link_place(positions, left, right, i);
        left[i] = 65535;
        right[i] = 65535;
    }
}

impl Lookup {
    fn unmeasured(bounds: BoundingBox) -> Self
        ensures { result ≡ unmeasured bounds }
    {
        Lookup {
            bounds,
            phi_min: MAX,
            phi_max: -MAX,
            theta_min: MAX,
            theta_max: -MAX,
            radius_min: MAX,
            radius_max: -MAX,
        }
    }

    // The bounds with one measurement more, and its box.
    #[tactic(auto, unfolding(crate::specs::Build::widened))]
    fn widened(self, bounds: BoundingBox, s: Spherical) -> Self
        ensures { result ≡ widened self bounds s }
    {
        Lookup {
            bounds,
            phi_min: floats::min(self.phi_min, s.azimuth),
            phi_max: floats::max(self.phi_max, s.azimuth),
            theta_min: floats::min(self.theta_min, s.elevation),
            theta_max: floats::max(self.theta_max, s.elevation),
            radius_min: floats::min(self.radius_min, s.radius),
            radius_max: floats::max(self.radius_max, s.radius),
        }
    }

    // The box and the bounds of the first m places.
    // It reads no link, so it asks for the positions and not for a tree.
    fn measured(positions: &[f32], m: usize) -> Self
        requires { (0 < m)
            × (m ≤ 16384)
            × (3 * m ≤ length positions.now) }
        ensures { result ≡ lookup_of positions.now m }
    {
        let first = points::point_at(positions, 0);
        let bounds = BoundingBox::new(first);
        let mut look = Lookup::unmeasured(bounds).widened(
            bounds,
            coords::cartesian_to_spherical(first),
        );
        for i in 1..m {
            let p = points::point_at(positions, i);
            look = look.widened(look.bounds.extend(p), coords::cartesian_to_spherical(p));
        }
        look
    }

    // Links the first m places of a Cartesian list in place order, and answers their box and bounds.
    #[tactic(auto, unfolding(crate::specs::Build::build_of))]
    pub fn new(positions: &[f32], m: usize, left: &mut [u16], right: &mut [u16]) -> Self
        requires { (0 < m)
            × TreeHolds m positions.now left.old right.old }
        ensures { built_as result (links_of left.new right.new) ≡ build_of positions.now m (links_of left.old right.old) }
    {
        link_all(positions, left, right, m);
        Lookup::measured(positions, m)
    }

    // The radius clamp: drawn in to the greatest radius, or out to the least.
    pub fn normalize_radius(self, pos: Point3) -> Point3
        ensures { result ≡ clamped_by self pos }
    {
        let r = coords::radius(pos);
        if r > self.radius_max {
            return scale(pos, self.radius_max / r);
        }
        if (r < self.radius_min) & (r > 0.0) {
            return scale(pos, self.radius_min / r);
        }
        pos
    }

    // The measurement nearest to a point that is clamped already.
    #[tactic(auto, unfolding(crate::specs::Lookup::located_by))]
    pub fn nearest(self, tree: &Tree, p: Point3) -> Located
        requires { 0 < tree.now.count }
        ensures { result
            ≡ located_by (place_found tree.now.positions.now tree.now.left.now tree.now.right.now tree.now.count self.bounds p) }
    {
        let Some(best) = kdtree::nearest_place(tree, 0, self.bounds, p) else {
            return Located::Refused(Refusal::BadLink);
        };
        Located::At(best.place)
    }

    // The measurement nearest to the clamped query, for any links and any f32.
    #[tactic(auto, unfolding(crate::specs::Lookup::locate_of))]
    pub fn locate(self, tree: &Tree, q: Point3) -> Located
        requires { 0 < tree.now.count }
        ensures { result
            ≡ locate_of self tree.now.count tree.now.positions.now tree.now.left.now tree.now.right.now q }
    {
        let p = self.normalize_radius(q);
        self.nearest(tree, p)
    }

    // The measurement nearest to the clamped query, or refusal 2, 3, 7 or 9.
    // Lists one by one, as the C interface lends them: this asks nothing of its caller, and a `Tree` would.
    pub fn find(
        self,
        sizes: Sizes,
        cartesian: &[f32],
        left: &[u16],
        right: &[u16],
        coordinate: Point3,
    ) -> Located
        ensures { result ≡ find_of self sizes cartesian.now left.now right.now coordinate }
    {
        let lengths = TreeLengths::of(cartesian, left, right);
        if let Err(refusal) = limits::judge_find(sizes, lengths, coordinate) {
            return Located::Refused(refusal);
        }
        let tree = Tree {
            count: sizes.m,
            positions: cartesian,
            left,
            right,
        };
        self.locate(&tree, coordinate)
    }

    // The same, and the coordinates are clamped in place; refused, they stay.
    pub fn find_mut(
        self,
        sizes: Sizes,
        cartesian: &[f32],
        left: &[u16],
        right: &[u16],
        coordinate: &mut [f32; 3],
    ) -> Located
        ensures { moved_as result coordinate.new ≡ find_mut_of self sizes cartesian.now left.now right.now coordinate.old }
    {
        let q = Point3::from(*coordinate);
        let found = self.find(sizes, cartesian, left, right, q);
        let Located::At(_) = found else {
            return found;
        };
        let p = self.normalize_radius(q);
        *coordinate = p.into();
        found
    }
}

#[tactic(auto, unfolding(crate::specs::Lookup::scaled))]
fn scale(p: Point3, k: f32) -> Point3
    ensures { result ≡ scaled p k }
{
    Point3 {
        x: p.x * k,
        y: p.y * k,
        z: p.z * k,
    }
}
