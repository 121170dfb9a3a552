// A clearing around a measurement: an open box, and the places of all others that stand in it, up to 24; for one more the box is drawn
// in. So whatever is not listed stands outside, no nearer to a query in the box than a face is. Where the nearest of the measurement and
// those listed is nearer than every face, and no other of them as near, it is the nearest of all, and no search is needed.
//
// The definition of the neighbour table knows no clearing: it searches at every step (`neighbors` specs/Neighbors.antt). The code may
// leave a search out because it would find the same: `alone_found`, `clearing_laws` proofs/Alone.antt, over links that were built and
// for any f32; `neighbors` uses it in proofs/Around.antt.
//
// `clear` promises the clearing (`clearing_of`, specs/Clearing.antt), `nearest_in` the nearest of those in it (`nearest_within`), `alone` the
// test (`alone_in`), `reach_after` how far the next one looks (`reach_after`): each for any lists and any f32.
#![tactic(auto)]

ghost use Rattle.std.specs.Prelude.{◌≡◌, cond, ℕ, ◌-◌, ◌*◌, ◌<◌, ◌≤◌, ltb, length};
ghost use Rattle.kdtree.specs.Tree.{subtree};
ghost use Rattle.points.specs.Points.{point_at, dist_sq_of};
ghost use Rattle.clearing.specs.Clearing.{strictly_between, holds, far_axis, drawn_in, held_in, met, reaches, cleared, none, clearing_of, reach_after, nearer_than_faces, alone_in, nearer, nearest_within};

use kdtree::{BoundingBox, Link, Tree};
use points::Point3;

const MOST: usize = 24;

// An open box, and the first `count` of `places`: an array with its count beside it, since there is no heap for a list that grows.
#[derive(Clone, Copy)]
pub struct Clearing {
    pub faces: BoundingBox,
    pub count: usize,
    pub places: [u16; 24],
}

// What the levels of a walk hand on and answer: the faces so far, and how many places are listed. The places stand in one lent array.
#[derive(Clone, Copy)]
struct Kept {
    faces: BoundingBox,
    count: usize,
}

// Strictly, where the tests of crate `limits` take the ends too.
fn is_between(lo: f32, hi: f32, x: f32) -> bool
    ensures { result ≡ strictly_between lo hi x }
{
    (lo < x) & (x < hi)
}

#[tactic(auto, unfolding(crate::specs::Clearing::holds))]
fn has_inside(b: BoundingBox, x: Point3) -> bool
    ensures { result ≡ holds b x }
{
    is_between(b.min_x, b.max_x, x.x)
        & (is_between(b.min_y, b.max_y, x.y) & is_between(b.min_z, b.max_z, x.z))
}

// The axis on which x is farthest from p: a face there costs the box least.
// An axis is a number, as crate `kdtree` has it.
#[tactic(auto, unfolding(crate::specs::Clearing::far_axis))]
fn far_axis(p: Point3, x: Point3) -> u8
    ensures { result ≡ far_axis p x }
{
    let a = floats::abs(x.x - p.x);
    let b = floats::abs(x.y - p.y);
    let c = floats::abs(x.z - p.z);
    if (b <= a) & (c <= a) {
        0
    } else if c <= b {
        1
    } else {
        2
    }
}

// The face on that side of p goes to x.
#[tactic(auto, unfolding(crate::specs::Clearing::drawn_in))]
fn drawn_in(b: BoundingBox, p: Point3, x: Point3) -> BoundingBox
    ensures { result ≡ drawn_in b p x }
{
    let axis = far_axis(p, x);
    let v = kdtree::coord(x, axis);
    let below = v < kdtree::coord(p, axis);
    b.side(axis, v, !below)
}

// A point other than its own that the box holds is listed, or where there is no room is put out of the box.
#[tactic(auto, unfolding(crate::specs::Clearing::met, crate::specs::Clearing::listed, crate::specs::Clearing::faced))]
fn meet(own: usize, p: Point3, n: usize, x: Point3, places: &mut [u16; 24], kept: Kept) -> Kept
    requires { n < 16384 }
    ensures { held_in result places.new ≡ met own p n x (held_in kept places.old) }
{
    if (n == own) | !has_inside(kept.faces, x) {
        return kept;
    }
    if kept.count < MOST {
        places[kept.count] = n as u16;
        Kept {
            count: kept.count + 1,
            ..kept
        }
    } else {
        Kept {
            faces: drawn_in(kept.faces, p, x),
            ..kept
        }
    }
}

// The box reaches past a node's coordinate, p being on its left or not.
#[tactic(auto, unfolding(crate::specs::Clearing::reaches))]
fn goes_past(on_left: bool, b: BoundingBox, axis: u8, v: f32) -> bool
    ensures { result ≡ reaches on_left b axis v }
{
    if on_left {
        !(b.max_at(axis) <= v)
    } else {
        b.min_at(axis) < v
    }
}

// Node, the side that p is on, and the other side if the box reaches there. Over links that were built each node is met once.
fn clear_rec(
    tree: &Tree,
    own: usize,
    places: &mut [u16; 24],
    node: usize,
    axis: u8,
    kept: Kept,
) -> Kept
    requires { (node < tree.now.count) × (own < tree.now.count) }
    ensures { (f : ℕ) → tree.now.count - node ≤ f
        → held_in result places.new
        ≡ cleared own (point_at tree.now.positions.now own)
        (subtree tree.now.left.now tree.now.right.now tree.now.positions.now tree.now.count f node) axis
        (held_in kept places.old) }
{
    let p = points::point_at(tree.positions, own);
    let x = points::point_at(tree.positions, node);
    let v = kdtree::coord(x, axis);
    let on_left = kdtree::coord(p, axis) < v;
    let next = kdtree::next_axis(axis);
    let l = tree.left[node];
    let r = tree.right[node];
    let here = meet(own, p, node, x, places, kept);
    let near = match kdtree::link_of(tree.count, node, kdtree::choose(on_left, l, r)) {
        Link::To(n) => clear_rec(tree, own, places, n, next, here),
        _ => here,
    };
    if !goes_past(on_left, near.faces, axis, v) {
        return near;
    }
    match kdtree::link_of(tree.count, node, kdtree::choose(on_left, r, l)) {
        Link::To(n) => clear_rec(tree, own, places, n, next, near),
        _ => near,
    }
}

// p alone.
#[tactic(auto, unfolding(crate::specs::Clearing::none))]
fn none(p: Point3) -> Clearing
    ensures { result ≡ none p }
{
    Clearing {
        faces: BoundingBox::new(p),
        count: 0,
        places: [0; 24],
    }
}

// The clearing around the measurement at the place `own`, no wider than `reach` to each side. Where the first step leads out of that,
// nothing is looked for.
#[tactic(auto, unfolding(crate::specs::Clearing::around, crate::specs::Clearing::clearing_of))]
pub fn clear(tree: &Tree, own: usize, reach: f32, step: f32) -> Clearing
    requires { own < tree.now.count }
    ensures { result
        ≡ clearing_of own (point_at tree.now.positions.now own)
        (subtree tree.now.left.now tree.now.right.now tree.now.positions.now tree.now.count tree.now.count 0) reach step }
{
    let p = points::point_at(tree.positions, own);
    if reach < step {
        return none(p);
    }
    let faces = BoundingBox {
        min_x: p.x - reach,
        min_y: p.y - reach,
        min_z: p.z - reach,
        max_x: p.x + reach,
        max_y: p.y + reach,
        max_z: p.z + reach,
    };
    let mut places = [0; 24];
    let Kept { faces, count } = clear_rec(tree, own, &mut places, 0, 0, Kept { faces, count: 0 });
    Clearing {
        faces,
        count,
        places,
    }
}

// How far to look from the next measurement: it changes only how often a search is made, not what is found.
#[tactic(auto, unfolding(crate::specs::Clearing::reach_after))]
pub fn reach_after(reach: f32, step: f32, count: usize) -> f32
    ensures { result ≡ reach_after reach step count }
{
    if reach < step {
        return reach * 1.03125;
    }
    if count < MOST {
        if count < 12 { reach * 1.25 } else { reach }
    } else {
        reach * 0.8
    }
}

#[tactic(auto, unfolding(crate::specs::Clearing::nearer_than_faces))]
fn within_faces(d: f32, lo: f32, hi: f32, q: f32) -> bool
    ensures { result ≡ nearer_than_faces d lo hi q }
{
    let a = lo - q;
    let b = hi - q;
    is_between(lo, hi, q) & ((d < a * a) & (d < b * b))
}

// p is nearer to q than every face of the clearing is, and than the root if that is another.
#[tactic(auto, unfolding(crate::specs::Clearing::alone_in))]
pub fn alone(b: BoundingBox, own: usize, p: Point3, root: Point3, q: Point3) -> bool
    ensures { result ≡ alone_in b own p root q }
{
    let d = points::dist_sq(p, q);
    ((own == 0) | (d < points::dist_sq(root, q)))
        & (within_faces(d, b.min_x, b.max_x, q.x)
            & (within_faces(d, b.min_y, b.max_y, q.y) & within_faces(d, b.min_z, b.max_z, q.z)))
}

// The nearest of those in a clearing, and whether another is as near: place and distance hold either way, so `tied` is no `Option` of them.
#[derive(Clone, Copy)]
pub struct Nearest {
    pub place: usize,
    pub dist: f32,
    pub tied: bool,
}

#[tactic(auto, unfolding(crate::specs::Clearing::nearer))]
fn nearer(s: Nearest, n: usize, d: f32) -> Nearest
    ensures { result ≡ nearer s n d }
{
    if d < s.dist {
        Nearest {
            place: n,
            dist: d,
            tied: false,
        }
    } else if d <= s.dist {
        Nearest { tied: true, ..s }
    } else {
        s
    }
}

// A listed place, beside the nearest so far.
fn beside(xs: &[f32], m: usize, q: Point3, s: Nearest, n: usize) -> Nearest
    requires { 3 * m ≤ length xs.now }
    ensures { result ≡ cond (ltb n m) (nearer s n (dist_sq_of (point_at xs.now n) q)) s }
{
    if n < m {
        nearer(s, n, points::dist_sq(points::point_at(xs, n), q))
    } else {
        s
    }
}

// Its own, and all that are listed. It reads no link, so it asks for the positions and not for a tree.
pub fn nearest_in(m: usize, xs: &[f32], own: usize, c: Clearing, q: Point3) -> Nearest
    requires { (own < m)
        × (3 * m ≤ length xs.now)
        × (m ≤ 16384) }
    ensures { result ≡ nearest_within xs.now m q own c }
{
    let mut s = Nearest {
        place: own,
        dist: points::dist_sq(points::point_at(xs, own), q),
        tied: false,
    };
    for n in &c.places[..c.count.min(MOST)] {
        s = beside(xs, m, q, s, usize::from(*n));
    }
    s
}
