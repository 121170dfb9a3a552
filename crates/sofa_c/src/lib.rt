// What a C or Rust host links: each export is the function of its name in the crate `sofa`, with the same promise. An archive has only the exports
// of its own crate, and a crate is a library or an archive, so they stand here and their proofs there. proofs/Promised.antt: each export's own contract
// says what that function's does.
#![tactic(auto)]

ghost use Rattle.std.specs.Prelude.{◌≡◌, length};
ghost use Rattle.root.specs.Root.{root_of};
ghost use Rattle.angles.specs.Says.{sine_says, cosine_says, arctan_says};
ghost use Rattle.kdtree.specs.Insert.{lists_of};
ghost use Rattle.lookup.specs.Lookup.{find_of, find_mut_of};
ghost use Rattle.loads.specs.Load.{work_of, load_of};
ghost use Rattle.reader.specs.Queries.{filter_says, plain_says, number_says};
ghost use Rattle.stored.specs.Numbers.{part_of, around_of};
ghost use Rattle.stored.specs.Longest.{max_delay_of};
ghost use Rattle.sofa.specs.Border.{value_as, version_number};
ghost use Rattle.sofa.specs.Convert.{turned_by, turn_says};
ghost use Rattle.sofa.specs.Tree.{left_by, insert_says, nearest_says, point};
ghost use Rattle.sofa.specs.Set.{located_as, part_as, around_as, longest_as, loaded_by, load_told, moved_by, move_told, filtered_by, filter_told};

use kdtree::BoundingBox;
use limits::Sizes;
use lookup::Lookup;
use sofa::SofaValue;
use sofa::convert::SofaRefusal;
use sofa::set::{SofaFiltered, SofaLoaded, SofaNeighbors, SofaPart};
use sofa::tree::{SofaFound, SofaInserted};

#[unsafe(no_mangle)]
pub extern "C" fn sofa_version() -> u32
    ensures { result ≡ version_number }
{
    sofa::sofa_version()
}

#[unsafe(no_mangle)]
pub extern "C" fn sofa_root(x: f32) -> f32
    ensures { result ≡ root_of x }
{
    sofa::sofa_root(x)
}

#[unsafe(no_mangle)]
pub extern "C" fn sofa_sine(x: f32) -> SofaValue
    ensures { result ≡ value_as (sine_says x) }
{
    sofa::sofa_sine(x)
}

#[unsafe(no_mangle)]
pub extern "C" fn sofa_cosine(x: f32) -> SofaValue
    ensures { result ≡ value_as (cosine_says x) }
{
    sofa::sofa_cosine(x)
}

#[unsafe(no_mangle)]
pub extern "C" fn sofa_arctangent(y: f32, x: f32) -> SofaValue
    ensures { result ≡ value_as (arctan_says y x) }
{
    sofa::sofa_arctangent(y, x)
}

#[unsafe(no_mangle)]
pub extern "C" fn sofa_to_spherical(values: &mut [f32]) -> SofaRefusal
    ensures { turned_by result values.new ≡ turn_says 0 values.old }
{
    sofa::convert::sofa_to_spherical(values)
}

#[unsafe(no_mangle)]
pub extern "C" fn sofa_to_cartesian(values: &mut [f32]) -> SofaRefusal
    ensures { turned_by result values.new ≡ turn_says 1 values.old }
{
    sofa::convert::sofa_to_cartesian(values)
}

#[unsafe(no_mangle)]
pub extern "C" fn sofa_tree_insert(
    count: usize,
    bounds: BoundingBox,
    positions: &mut [f32],
    left: &mut [u16],
    right: &mut [u16],
    numbers: &mut [u16],
    x: f32,
    y: f32,
    z: f32,
    number: u16,
) -> SofaInserted
    ensures { left_by result (lists_of positions.new left.new right.new numbers.new)
        ≡ insert_says (lists_of positions.old left.old right.old numbers.old) count bounds x y z number }
{
    sofa::tree::sofa_tree_insert(
        count, bounds, positions, left, right, numbers, x, y, z, number,
    )
}

#[unsafe(no_mangle)]
pub extern "C" fn sofa_tree_nearest(
    count: usize,
    bounds: BoundingBox,
    positions: &[f32],
    left: &[u16],
    right: &[u16],
    numbers: &[u16],
    x: f32,
    y: f32,
    z: f32,
) -> SofaFound
    ensures { result ≡ nearest_says (lists_of positions.now left.now right.now numbers.now) count bounds x y z }
{
    sofa::tree::sofa_tree_nearest(count, bounds, positions, left, right, numbers, x, y, z)
}

#[unsafe(no_mangle)]
pub extern "C" fn sofa_load(
    kind: u32,
    sizes: Sizes,
    positions: &[f32],
    responses: &[f32],
    angle_step: f32,
    radius_step: f32,
    rate: f32,
    left: &mut [u16],
    right: &mut [u16],
    neighbours: &mut [u16],
    cartesian: &mut [f32],
) -> SofaLoaded
    ensures { loaded_by result (work_of left.new right.new neighbours.new cartesian.new)
        ≡ load_told (load_of kind sizes positions.now (length responses.now) angle_step radius_step rate
        (work_of left.old right.old neighbours.old cartesian.old)) }
{
    sofa::set::sofa_load(
        kind,
        sizes,
        positions,
        responses,
        angle_step,
        radius_step,
        rate,
        left,
        right,
        neighbours,
        cartesian,
    )
}

#[unsafe(no_mangle)]
pub extern "C" fn sofa_find(
    sizes: Sizes,
    look: Lookup,
    cartesian: &[f32],
    left: &[u16],
    right: &[u16],
    x: f32,
    y: f32,
    z: f32,
) -> SofaFound
    ensures { result ≡ located_as (find_of look sizes cartesian.now left.now right.now (point x y z)) }
{
    sofa::set::sofa_find(sizes, look, cartesian, left, right, x, y, z)
}

#[unsafe(no_mangle)]
pub extern "C" fn sofa_find_mut(
    sizes: Sizes,
    look: Lookup,
    cartesian: &[f32],
    left: &[u16],
    right: &[u16],
    coordinate: &mut [f32; 3],
) -> SofaFound
    ensures { moved_by result coordinate.new ≡ move_told (find_mut_of look sizes cartesian.now left.now right.now coordinate.old) }
{
    sofa::set::sofa_find_mut(sizes, look, cartesian, left, right, coordinate)
}

#[unsafe(no_mangle)]
pub extern "C" fn sofa_filter(
    sizes: Sizes,
    look: Lookup,
    cartesian: &[f32],
    left: &[u16],
    right: &[u16],
    neighbours: &[u16],
    responses: &[f32],
    delays: &[f32],
    rate: f32,
    x: f32,
    y: f32,
    z: f32,
    out_left: &mut [f32],
    out_right: &mut [f32],
) -> SofaFiltered
    ensures { filtered_by result out_left.new out_right.new
        ≡ filter_told (filter_says sizes look cartesian.now left.now right.now neighbours.now responses.now delays.now rate
        (point x y z) (length out_left.old) (length out_right.old)) }
{
    sofa::set::sofa_filter(
        sizes, look, cartesian, left, right, neighbours, responses, delays, rate, x, y, z,
        out_left, out_right,
    )
}

#[unsafe(no_mangle)]
pub extern "C" fn sofa_filter_nointerp(
    sizes: Sizes,
    look: Lookup,
    cartesian: &[f32],
    left: &[u16],
    right: &[u16],
    responses: &[f32],
    delays: &[f32],
    rate: f32,
    x: f32,
    y: f32,
    z: f32,
    out_left: &mut [f32],
    out_right: &mut [f32],
) -> SofaFiltered
    ensures { filtered_by result out_left.new out_right.new
        ≡ filter_told (plain_says sizes look cartesian.now left.now right.now responses.now delays.now rate
        (point x y z) (length out_left.old) (length out_right.old)) }
{
    sofa::set::sofa_filter_nointerp(
        sizes, look, cartesian, left, right, responses, delays, rate, x, y, z, out_left, out_right,
    )
}

#[unsafe(no_mangle)]
pub extern "C" fn sofa_filter_number(
    sizes: Sizes,
    responses: &[f32],
    delays: &[f32],
    rate: f32,
    number: usize,
    out_left: &mut [f32],
    out_right: &mut [f32],
) -> SofaFiltered
    ensures { filtered_by result out_left.new out_right.new
        ≡ filter_told (number_says sizes responses.now delays.now rate number (length out_left.old) (length out_right.old)) }
{
    sofa::set::sofa_filter_number(sizes, responses, delays, rate, number, out_left, out_right)
}

#[unsafe(no_mangle)]
pub extern "C" fn sofa_left_response(sizes: Sizes, responses: &[f32], number: usize) -> SofaPart
    ensures { result ≡ part_as (part_of sizes (length responses.now) number 0) }
{
    sofa::set::sofa_left_response(sizes, responses, number)
}

#[unsafe(no_mangle)]
pub extern "C" fn sofa_right_response(sizes: Sizes, responses: &[f32], number: usize) -> SofaPart
    ensures { result ≡ part_as (part_of sizes (length responses.now) number 1) }
{
    sofa::set::sofa_right_response(sizes, responses, number)
}

#[unsafe(no_mangle)]
pub extern "C" fn sofa_neighbors_of(
    sizes: Sizes,
    neighbours: &[u16],
    number: usize,
) -> SofaNeighbors
    ensures { result ≡ around_as (around_of sizes neighbours.now number) }
{
    sofa::set::sofa_neighbors_of(sizes, neighbours, number)
}

#[unsafe(no_mangle)]
pub extern "C" fn sofa_max_delay(delays: &[f32], rate: f32) -> SofaValue
    ensures { result ≡ longest_as (max_delay_of delays.now rate) }
{
    sofa::set::sofa_max_delay(delays, rate)
}
