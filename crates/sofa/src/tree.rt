// The bare tree for hosts: `kdtree::insert` and `kdtree::nearest`, their promises carried across by specs/Tree.antt. Arguments stand one by one, and
// structs are of plain numbers, since that is the C interface.
ghost use Rattle.std.specs.Prelude.{◌≡◌};
ghost use Rattle.kdtree.specs.Insert.{lists_of};
ghost use Rattle.sofa.specs.Tree.{inserted_as, found_as, left_by, insert_says, nearest_says};

use crate::convert::SofaRefusal;
use kdtree::BoundingBox;
use points::Point3;
use refusals::Refusal;

#[repr(C)]
#[derive(Clone, Copy)]
pub struct SofaInserted {
    pub reason: u32,
    pub place: usize,
    pub bounds: BoundingBox,
}

// The number is 65535 where there is none.
#[repr(C)]
#[derive(Clone, Copy)]
pub struct SofaFound {
    pub reason: u32,
    pub place: usize,
    pub number: u16,
}

// Where there is none.
const NO_NUMBER: u16 = 65535;

pub const NO_BOX: BoundingBox = BoundingBox {
    min_x: 0.0,
    min_y: 0.0,
    min_z: 0.0,
    max_x: 0.0,
    max_y: 0.0,
    max_z: 0.0,
};

impl From<Result<BoundingBox, Refusal>> for SofaInserted {
    ghost from_gives = { λ answer r. r ≡ inserted_as answer };

    fn from(answer: Result<BoundingBox, Refusal>) -> Self {
        let SofaRefusal { reason, place } = answer.into();
        SofaInserted {
            reason,
            place,
            bounds: answer.unwrap_or(NO_BOX),
        }
    }
}

impl From<Result<Option<u16>, Refusal>> for SofaFound {
    ghost from_gives = { λ answer r. r ≡ found_as answer };

    fn from(answer: Result<Option<u16>, Refusal>) -> Self {
        let SofaRefusal { reason, place } = answer.into();
        SofaFound {
            reason,
            place,
            number: answer.unwrap_or(None).unwrap_or(NO_NUMBER),
        }
    }
}

pub fn sofa_tree_insert(
    count: usize,
    bounds: BoundingBox,
    positions: &mut [f32],
    left: &mut [u16],
    right: &mut [u16],
    numbers: &mut [u16],
    x: f32,
    y: f32,
    z: f32,
    number: u16,
) -> SofaInserted
    ensures { left_by result (lists_of positions.new left.new right.new numbers.new)
        ≡ insert_says (lists_of positions.old left.old right.old numbers.old) count bounds x y z number }
{
    let p = Point3 { x, y, z };
    kdtree::insert(count, bounds, positions, left, right, numbers, p, number).into()
}

pub fn sofa_tree_nearest(
    count: usize,
    bounds: BoundingBox,
    positions: &[f32],
    left: &[u16],
    right: &[u16],
    numbers: &[u16],
    x: f32,
    y: f32,
    z: f32,
) -> SofaFound
    ensures { result ≡ nearest_says (lists_of positions.now left.now right.now numbers.now) count bounds x y z }
{
    let q = Point3 { x, y, z };
    kdtree::nearest(count, bounds, positions, left, right, numbers, q).into()
}
