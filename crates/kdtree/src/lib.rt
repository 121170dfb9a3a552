// The k-d tree of kdtree.rs over lent lists: places 0..count-1 in `positions` (three values each), `left` and `right` (the links,
// 65535 for absent) and `numbers` (the 16-bit number given with each place), for any f32 and any links.
//
// `insert` promises the answer and all four lists after every call (`insert_of`, specs/Insert.antt), `nearest` its answer
// (`nearest_of`, specs/Nearest.antt); neither asks anything of its caller. The definitions follow document 01's "Distance, tree,
// tie": distances and boxes in specs/Geometry.antt, the tree that the links draw in specs/Tree.antt, the pruned search in
// specs/Search.antt, the unpruned walk in specs/Unpruned.antt. What the answers mean for the points inserted (demand 3) is the
// crate `kdtree_laws`.
#![tactic(auto)]

ghost use Rattle.std.specs.Prelude.{◌≡◌, cond, ℕ, ◌+◌, ◌-◌, ◌*◌, ◌<◌, ◌≤◌, length};
ghost use Rattle.kdtree.specs.Geometry.{byAxis, coord_of, next_axis, Firm, outside, box_dist_sq, box_at, lower, upper, grown, min_at, max_at, corner_of, with_min, with_max, goes_left};
ghost use Rattle.kdtree.specs.Tree.{TreeHolds, link_of, subtree};
ghost use Rattle.kdtree.specs.Search.{search, improve, visited, nearer_box, farther_box};
ghost use Rattle.points.specs.Points.{point_at, dist_sq_of};
ghost use Rattle.floats.specs.Floats.{zero32};
ghost use Rattle.std.specs.Float.{binary32};
ghost use Rattle.std.specs.Float.Ieee.{sub, lt, le};
ghost use Rattle.kdtree.specs.Insert.{lists_of, stored_as, slot_in, owner_of, left_linked, right_linked, written, room_for, insert_of};
ghost use Rattle.kdtree.specs.Nearest.{found_from, lengths_for, nearest_of};

use points::Point3;
use refusals::Refusal;

// ---- coordinates and distances

// An axis is a number: `coord`, `next_axis`, `side` answer for every u8, and an enum would ask more of callers.
// It is an index too, where a `match` would jump: so `axis < 3` is asked where a list is read by it.
#[tactic(auto, unfolding(crate::specs::Geometry::coord_of, crate::specs::Geometry::byAxis))]
pub fn coord(p: Point3, axis: u8) -> f32
    ensures { result ≡ coord_of p axis }
{
    match axis {
        0 => p.x,
        1 => p.y,
        _ => p.z,
    }
}

pub fn next_axis(axis: u8) -> u8
    ensures { result ≡ next_axis axis }
{
    if axis < 2 { axis + 1 } else { 0 }
}

// One axis of a box's distance: added only where q lies outside of it. One square is made and added, that of +0 inside, so that nothing jumps: +0 added
// leaves the sum as it is, since that is not -0.
fn beyond(sum: f32, min: f32, max: f32, q: f32) -> f32
    requires { Firm sum }
    ensures { (result ≡ outside sum min max q) × Firm result }
{
    let a = min - q;
    let b = max - q;
    let above = if q > max { b } else { 0.0 };
    let g = if q < min { a } else { above };
    sum + g * g
}

// ---- the box

#[repr(C)]
#[derive(Clone, Copy)]
pub struct BoundingBox {
    pub min_x: f32,
    pub min_y: f32,
    pub min_z: f32,
    pub max_x: f32,
    pub max_y: f32,
    pub max_z: f32,
}

// The box grows by strict comparison: a NaN corner stays, where `floats::min` and `floats::max` would take the other.
fn least(m: f32, v: f32) -> f32
    ensures { result ≡ lower m v }
{
    if v < m { v } else { m }
}

// Beside `least`: one function of both would take a flag for one sign.
fn most(m: f32, v: f32) -> f32
    ensures { result ≡ upper m v }
{
    if v > m { v } else { m }
}

// A selection: of numbers nothing jumps.
pub fn choose<T: Copy>(first: bool, a: T, b: T) -> T
    ensures { result ≡ cond first a b }
{
    if first { a } else { b }
}

// Where the coordinate of an axis stands among three.
#[tactic(auto, unfolding(crate::specs::Geometry::byAxis))]
fn index_of(axis: u8) -> usize
    ensures { result ≡ byAxis axis 0 1 2 }
{
    if axis < 2 { axis as usize } else { 2 }
}

// Which corner coordinate the plane of a node replaces, from 0 to 5: the least x, y, z, then the greatest.
// A number, since it is worked out by adding and then compared: a match on an enum would jump.
#[tactic(auto, unfolding(crate::specs::Geometry::corner_of))]
fn corner(axis: u8, left: bool) -> u32
    ensures { result ≡ corner_of axis left }
{
    let low = index_of(axis) as u32;
    if left { low + 3 } else { low }
}

impl BoundingBox {
    #[tactic(auto, unfolding(crate::specs::Geometry::box_at))]
    pub fn new(p: Point3) -> Self
        ensures { result ≡ box_at p }
    {
        BoundingBox {
            min_x: p.x,
            min_y: p.y,
            min_z: p.z,
            max_x: p.x,
            max_y: p.y,
            max_z: p.z,
        }
    }

    #[tactic(auto, unfolding(crate::specs::Geometry::grown))]
    pub fn extend(self, p: Point3) -> Self
        ensures { result ≡ grown self p }
    {
        BoundingBox {
            min_x: least(self.min_x, p.x),
            min_y: least(self.min_y, p.y),
            min_z: least(self.min_z, p.z),
            max_x: most(self.max_x, p.x),
            max_y: most(self.max_y, p.y),
            max_z: most(self.max_z, p.z),
        }
    }

    // Read by the index, where a `match` on the axis would jump.
    pub fn min_at(self, axis: u8) -> f32
        ensures { result ≡ min_at self axis }
    {
        let corners = [self.min_x, self.min_y, self.min_z];
        let at = index_of(axis);
        corners[at]
    }

    // Beside `min_at`: it reads three fields of its own, and a flag to choose them by would be one test more.
    pub fn max_at(self, axis: u8) -> f32
        ensures { result ≡ max_at self axis }
    {
        let corners = [self.max_x, self.max_y, self.max_z];
        let at = index_of(axis);
        corners[at]
    }

    // The box of a node's left or right side, v being the node's coordinate on the axis: one corner coordinate is replaced, the
    // greatest or the least. Which one is selected and not jumped to: no processor guesses it.
    pub fn side(self, axis: u8, v: f32, left: bool) -> Self
        ensures { result ≡ cond left (with_max self axis v) (with_min self axis v) }
    {
        let k = corner(axis, left);
        BoundingBox {
            min_x: choose(k == 0, v, self.min_x),
            min_y: choose(k == 1, v, self.min_y),
            min_z: choose(k == 2, v, self.min_z),
            max_x: choose(k == 3, v, self.max_x),
            max_y: choose(k == 4, v, self.max_y),
            max_z: choose(k == 5, v, self.max_z),
        }
    }

    // The squared distance from a point to the box: +0 inside.
    #[tactic(auto, unfolding(crate::specs::Geometry::box_dist_sq))]
    fn dist_sq(self, q: Point3) -> f32
        ensures { result ≡ box_dist_sq self q }
    {
        let x = beyond(0.0, self.min_x, self.max_x, q.x);
        let y = beyond(x, self.min_y, self.max_y, q.y);
        beyond(y, self.min_z, self.max_z, q.z)
    }
}

// Two names, and four values one by one: document 01 wants the altered box passed by value, made anew for each side.
#[tactic(auto, unfolding(crate::specs::Search::nearer_box))]
fn nearer_box(rect: BoundingBox, axis: u8, v: f32, go_left: bool) -> BoundingBox
    ensures { result ≡ nearer_box go_left rect axis v }
{
    rect.side(axis, v, go_left)
}

#[tactic(auto, unfolding(crate::specs::Search::farther_box))]
fn farther_box(rect: BoundingBox, axis: u8, v: f32, go_left: bool) -> BoundingBox
    ensures { result ≡ farther_box go_left rect axis v }
{
    rect.side(axis, v, !go_left)
}

// ---- links

// What a link says.
// Three named outcomes, so neither an `Option` nor a `Result`.
#[derive(Clone, Copy)]
pub enum Link {
    Gone,
    To(usize),
    Bad,
}

// Good is a link above its owner and below the count.
// The lent lists mark an absent link by 65535, as the C interface has it: here that becomes a case.
#[tactic(auto, unfolding(crate::specs::Tree::link_of))]
pub fn link_of(count: usize, owner: usize, l: u16) -> Link
    ensures { result ≡ link_of count owner l }
{
    if l == 65535 {
        return Link::Gone;
    }
    let n = l as usize;
    if owner < n {
        if n < count {
            return Link::To(n);
        }
        return Link::Bad;
    }
    Link::Bad
}

// ---- the tree

// Places 0 to count - 1, as they are lent: coordinates in a row, and both links of each place.
// Three lists and a count: the C interface lends them so, and no memory is taken for nodes.
// That a place is below the count is asked at each read, as of any index.
#[derive(Clone, Copy)]
pub struct Tree<'a> {
    pub count: usize,
    pub positions: &'a [f32],
    pub left: &'a [u16],
    pub right: &'a [u16],
    // No list is shorter than the count asks, and at most 16384 are in.
    pub ghost holds: { TreeHolds count positions.now left.now right.now },
}

// ---- the search

// The best place so far, its squared distance, and the visits so far.
#[derive(Clone, Copy)]
pub struct Best {
    pub dist: f32,
    pub place: u16,
    pub visits: u16,
}

// The query stands in an array: a level of the search keeps one address of it, and reads a coordinate by the axis.
fn query_coord(q: &[f32; 3], axis: u8) -> f32
    requires { axis < 3 }
    ensures { result ≡ coord_of (point_at q.now 0) axis }
{
    let at = axis as usize;
    q[at]
}

impl Tree<'_> {
    // One coordinate of a place, by the axis.
    fn coord_at(&self, place: usize, axis: u8) -> f32
        requires { (place < self.now.count) × (axis < 3) }
        ensures { result ≡ coord_of (point_at self.now.positions.now place) axis }
    {
        let at = 3 * place + axis as usize;
        self.positions[at]
    }

    // From a place to the query.
    fn dist_at(&self, place: usize, q: &[f32; 3]) -> f32
        requires { place < self.now.count }
        ensures { result ≡ dist_sq_of (point_at self.now.positions.now place) (point_at q.now 0) }
    {
        points::dist_sq(points::point_at(self.positions, place), Point3::from(*q))
    }
}

// Query minus node, on the node's axis.
fn left_first(q: f32, v: f32) -> bool
    ensures { result ≡ le (sub binary32 q v) zero32 }
{
    q - v <= 0.0
}

#[tactic(auto, unfolding(crate::specs::Search::visited))]
fn visited(best: Best) -> Best
    requires { best.visits < 65535 }
    ensures { result ≡ visited best }
{
    Best {
        visits: best.visits + 1,
        ..best
    }
}

// The node wins only if it is strictly nearer.
#[tactic(auto, unfolding(crate::specs::Search::improve))]
fn better(n: u16, d: f32, best: Best) -> Best
    ensures { result ≡ improve n d best }
{
    if d < best.dist {
        Best {
            dist: d,
            place: n,
            ..best
        }
    } else {
        best
    }
}

// The farther side's box is strictly nearer than the best. Mostly the plane between the sides alone says no, and no box is made: where
// the query is not below the box on this axis, or left is first, the square of its distance to the plane is one of the terms of the
// box's distance, and a sum of squares rounds to no less (proofs/Plane.antt).
fn far_is_nearer(
    rect: BoundingBox,
    axis: u8,
    v: f32,
    go_left: bool,
    q: &[f32; 3],
    dist: f32,
) -> bool
    requires { (axis < 3) × (go_left ≡ le (sub binary32 (coord_of (point_at q.now 0) axis) v) zero32) }
    ensures { result ≡ lt (box_dist_sq (farther_box go_left rect axis v) (point_at q.now 0)) dist }
{
    let x = query_coord(q, axis);
    let to_plane = v - x;
    if (dist <= to_plane * to_plane) & (go_left | !(x < rect.min_at(axis))) {
        return false;
    }
    let far = farther_box(rect, axis, v, go_left);
    far.dist_sq(Point3::from(*q)) < dist
}

// Nearer side, node, farther side. It stops at a bad link, when it comes to that side, and where visit count + 1 would begin.
//
// The tree and the query stand behind one address each, so that a level hands on few words. Both links are read before the side is
// known, so that the next node need not wait for a second read. A node without sides is done at once, and one without a farther side
// has a way of its own: nothing but the node's distance is kept while its nearer side is searched. An answer of the farther side leaves
// by a way of its own too (`last`): one that is put together from its parts in memory and read at once as a whole is slow.
fn nearest_rec(
    tree: &Tree,
    q: &[f32; 3],
    rect: BoundingBox,
    node: usize,
    axis: u8,
    best: Best,
) -> Option<Best>
    requires { (node < tree.now.count) × (axis < 3) }
    ensures { (f : ℕ) → tree.now.count - node ≤ f
        → result
        ≡ search tree.now.count (point_at q.now 0) (subtree tree.now.left.now tree.now.right.now tree.now.positions.now tree.now.count f node) rect axis best }
{
    if tree.count <= best.visits as usize {
        return None;
    }
    let l = tree.left[node];
    let r = tree.right[node];
    let d = tree.dist_at(node, q);
    let seen = visited(best);
    if (l == 65535) & (r == 65535) {
        return Some(better(node as u16, d, seen));
    }
    let v = tree.coord_at(node, axis);
    let go_left = left_first(query_coord(q, axis), v);
    let next = next_axis(axis);
    let nearer = choose(go_left, l, r);
    let farther = choose(go_left, r, l);
    if farther == 65535 {
        let Link::To(n) = link_of(tree.count, node, nearer) else {
            return None;
        };
        let near = nearer_box(rect, axis, v, go_left);
        let only = nearest_rec(tree, q, near, n, next, seen)?;
        return Some(better(node as u16, d, only));
    }
    let after = match link_of(tree.count, node, nearer) {
        Link::Gone => seen,
        Link::To(n) => {
            let near = nearer_box(rect, axis, v, go_left);
            nearest_rec(tree, q, near, n, next, seen)?
        }
        Link::Bad => return None,
    };
    let b = better(node as u16, d, after);
    let Link::To(n) = link_of(tree.count, node, farther) else {
        return None;
    };
    if !far_is_nearer(rect, axis, v, go_left, q, b.dist) {
        return Some(b);
    }
    let far = farther_box(rect, axis, v, go_left);
    let last = nearest_rec(tree, q, far, n, next, b);
    last
}

// The place nearest to the query, among those below the root: the search begins with the root as best.
pub fn nearest_place(tree: &Tree, root: usize, bounds: BoundingBox, q: Point3) -> Option<Best>
    requires { root < tree.now.count }
    ensures { result ≡ found_from tree.now.positions.now tree.now.left.now tree.now.right.now tree.now.count root bounds q }
{
    let dist = points::dist_sq(points::point_at(tree.positions, root), q);
    let place = root as u16;
    let start = Best {
        dist,
        place,
        visits: 0,
    };
    let at = q.into();
    nearest_rec(tree, &at, bounds, root, 0, start)
}

// No list is shorter than the count asks, and at most 16384 are in.
// Lengths one by one: they are judged before there can be a `Tree`.
fn long_enough(count: usize, positions: usize, left: usize, right: usize, numbers: usize) -> bool
    ensures { result ≡ lengths_for count positions left right numbers }
{
    if count > 16384 {
        return false;
    }
    (3 * count <= positions) & ((count <= left) & ((count <= right) & (count <= numbers)))
}

// The number of the nearest place of the bare tree, none of an empty one.
// Lists one by one, as the C interface lends them: this asks nothing of its caller, and a `Tree` would.
pub fn nearest(
    count: usize,
    bounds: BoundingBox,
    positions: &[f32],
    left: &[u16],
    right: &[u16],
    numbers: &[u16],
    q: Point3,
) -> Result<Option<u16>, Refusal>
    ensures { result ≡ nearest_of (lists_of positions.now left.now right.now numbers.now) count bounds q }
{
    if !long_enough(
        count,
        positions.len(),
        left.len(),
        right.len(),
        numbers.len(),
    ) {
        return Err(Refusal::ShortLists);
    }
    if count == 0 {
        return Ok(None);
    }
    let tree = Tree {
        count,
        positions,
        left,
        right,
    };
    let Some(best) = nearest_place(&tree, 0, bounds, q) else {
        return Err(Refusal::BadLink);
    };
    let place = best.place as usize;
    Ok(Some(numbers[place]))
}

// ---- insertion

// Where a new node goes: the absent left or right side of an owner, or nowhere where a bad link is met. Measured: as an `Option` of two
// cases it is handed up through memory, level by level, and an insert takes a tenth longer.
#[derive(Clone, Copy)]
pub enum Slot {
    Left(usize),
    Right(usize),
    Blocked,
}

impl Slot {
    // The side, if there is one, leads to the place n now.
    #[tactic(auto, unfolding(crate::specs::Insert::left_linked, crate::specs::Insert::right_linked))]
    pub fn link(self, left: &mut [u16], right: &mut [u16], n: usize)
        requires { (owner_of self < length left.old)
            × (owner_of self < length right.old)
            × (n < 16384) }
        ensures left { left.new ≡ left_linked self n left.old }
        ensures right { right.new ≡ right_linked self n right.old }
    {
        match self {
            Slot::Left(o) => left[o] = n as u16,
            Slot::Right(o) => right[o] = n as u16,
            Slot::Blocked => {}
        }
    }
}

#[tactic(auto, unfolding(crate::specs::Geometry::goes_left))]
fn goes_left(p: Point3, x: Point3, axis: u8) -> bool
    ensures { result ≡ goes_left p x axis }
{
    coord(p, axis) < coord(x, axis)
}

// Strictly less than the node's coordinate goes left, otherwise right. It only reads: the writes follow.
// The parts of a tree one by one, and the point by value. Measured, behind one address each: a level reads the address of the list of
// links after the side is known, an insert takes a fifth longer, and more stack than the header says of it.
pub fn insert_rec(
    positions: &[f32],
    left: &[u16],
    right: &[u16],
    count: usize,
    p: Point3,
    node: usize,
    axis: u8,
) -> Slot
    requires { (node < count)
        × TreeHolds count positions.now left.now right.now }
    ensures { (f : ℕ) → count - node ≤ f
        → result ≡ slot_in p (subtree left.now right.now positions.now count f node) axis }
{
    let x = points::point_at(positions, node);
    let less = goes_left(p, x, axis);
    let next = next_axis(axis);
    let l = left[node];
    let r = right[node];
    match link_of(count, node, choose(less, l, r)) {
        Link::Gone => {
            if less {
                Slot::Left(node)
            } else {
                Slot::Right(node)
            }
        }
        Link::Bad => Slot::Blocked,
        Link::To(n) => insert_rec(positions, left, right, count, p, n, next),
    }
}

// Each list has room for one more, and fewer than 16384 are in.
fn has_room(count: usize, positions: usize, left: usize, right: usize, numbers: usize) -> bool
    ensures { result ≡ room_for count positions left right numbers }
{
    if 16384 <= count {
        return false;
    }
    long_enough(count + 1, positions, left, right, numbers)
}

// Writes the new node's own cells.
// Lists one by one: a `Tree` only lends them, and here they are written.
#[tactic(auto, unfolding(crate::specs::Insert::written))]
fn write_node(
    positions: &mut [f32],
    left: &mut [u16],
    right: &mut [u16],
    numbers: &mut [u16],
    count: usize,
    p: Point3,
    number: u16,
)
    requires { (3 * count + 2 < length positions.old)
        × (count < length left.old)
        × (count < length right.old)
        × (count < length numbers.old) }
    ensures { lists_of positions.new left.new right.new numbers.new
        ≡ written (lists_of positions.old left.old right.old numbers.old) count p number }
{
    left[count] = 65535;
    right[count] = 65535;
    let i = 3 * count;
    positions[i] = p.x;
    positions[i + 1] = p.y;
    positions[i + 2] = p.z;
    numbers[count] = number;
}

// Takes the next place, and answers the box with it: short lists before a bad link, and nothing is written then.
pub fn insert(
    count: usize,
    bounds: BoundingBox,
    positions: &mut [f32],
    left: &mut [u16],
    right: &mut [u16],
    numbers: &mut [u16],
    p: Point3,
    number: u16,
) -> Result<BoundingBox, Refusal>
    ensures { stored_as result (lists_of positions.new left.new right.new numbers.new)
        ≡ insert_of (lists_of positions.old left.old right.old numbers.old) count bounds p number }
{
    if !has_room(
        count,
        positions.len(),
        left.len(),
        right.len(),
        numbers.len(),
    ) {
        return Err(Refusal::ShortLists);
    }
    if count == 0 {
        write_node(positions, left, right, numbers, count, p, number);
        return Ok(BoundingBox::new(p));
    }
    let slot = insert_rec(positions, left, right, count, p, 0, 0);
    if let Slot::Blocked = slot {
        return Err(Refusal::BadLink);
    }
    slot.link(left, right, count);
    write_node(positions, left, right, numbers, count, p, number);
    Ok(bounds.extend(p))
}
