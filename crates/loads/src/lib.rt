// A set made ready: the half of reader.rs that opens it, over lent lists.
//
// `load` says for every input what it answers and what the four work lists then hold: `load_of` (specs/Load.antt). Refused, 1 to 6 in
// order, nothing is written. Else each list is written up to the length that document 01 asks and nothing past it: the Cartesian
// positions, copied or converted, the links of a tree filled in place order, and the six neighbours of each measurement.
//
// proofs/Bare.antt: the links of a loaded set are those of the bare tree filled in place order, and no search over them is refused.
#![tactic(auto)]

ghost use Rattle.std.specs.Prelude.{Ok, ◌≡◌, ◌*◌, ◌<◌, ◌≤◌, length};
ghost use Rattle.kdtree.specs.Tree.{TreeHolds};
ghost use Rattle.loads.specs.Load.{cartesian_from, work_of, load_as, indexed, load_of};

use kdtree::Tree;
use limits::{Lengths, Sizes, TreeLengths};
use lookup::Lookup;
use neighbors::Steps;
use refusals::Refusal;

// The Cartesian positions of a set; the list that they are written to is as long as the positions are. A load lets no kind pass but 0,
// cartesian, and 1, spherical; the kind is a number, and opened by a `match` on it, as document 01 wants it (docs/DECISIONS.md).
fn write_cartesian(kind: u32, positions: &[f32], cartesian: &mut [f32])
    requires { length positions.now ≡ length cartesian.old }
    ensures { cartesian.new ≡ cartesian_from kind positions.now }
{
    lists::copy(positions, cartesian, positions.len());
    match kind {
        0 => {}
        _ => coords::convert_triplets(1, cartesian),
    }
}

// Links, box, bounds and neighbours of m Cartesian positions. Over links that were just made no search is refused, so the table's
// answer is always Ok.
// Lists one by one, since they are written here: a `Tree` lends them when they are whole.
fn index(
    m: usize,
    steps: Steps,
    left: &mut [u16],
    right: &mut [u16],
    neighbours: &mut [u16],
    cartesian: &[f32],
) -> Lookup
    requires { (0 < m)
        × TreeHolds m cartesian.now left.old right.old
        × (6 * m ≤ length neighbours.old) }
    ensures { load_as (Ok result) (work_of left.new right.new neighbours.new cartesian.now)
        ≡ indexed m steps.angle steps.radius (work_of left.old right.old neighbours.old cartesian.now) }
{
    let look = Lookup::new(cartesian, m, left, right);
    let tree = Tree {
        count: m,
        positions: cartesian,
        left,
        right,
    };
    let _ = neighbors::fill_neighbors(look, &tree, steps, neighbours);
    look
}

// Loads a set, or refusal 1 to 6. The four lists that it writes, and both steps, stand one by one, as the C interface hands them over.
pub fn load(
    kind: u32,
    sizes: Sizes,
    positions: &[f32],
    responses: &[f32],
    angle_step: f32,
    radius_step: f32,
    rate: f32,
    left: &mut [u16],
    right: &mut [u16],
    neighbours: &mut [u16],
    cartesian: &mut [f32],
) -> Result<Lookup, Refusal>
    ensures { load_as result (work_of left.new right.new neighbours.new cartesian.new)
        ≡ load_of kind sizes positions.now (length responses.now) angle_step radius_step rate
        (work_of left.old right.old neighbours.old cartesian.old) }
{
    let lengths = Lengths {
        tree: TreeLengths::of(cartesian, left, right),
        responses: responses.len(),
        neighbours: neighbours.len(),
    };
    limits::judge_load(
        kind,
        sizes,
        lengths,
        positions,
        angle_step,
        radius_step,
        rate,
    )?;
    let m = sizes.m;
    write_cartesian(kind, positions, &mut cartesian[..3 * m]);
    let steps = Steps {
        angle: angle_step,
        radius: radius_step,
    };
    Ok(index(m, steps, left, right, neighbours, cartesian))
}
