// Refusals, and conversions in place for hosts: crate `coords`'s, their promises carried across by specs/Convert.antt.
ghost use Rattle.std.specs.Prelude.{◌≡◌};
ghost use Rattle.sofa.specs.Convert.{refusal_as, turned_by, turn_says};

use refusals::Refusal;

#[repr(C)]
#[derive(Clone, Copy)]
pub struct SofaRefusal {
    pub reason: u32,
    pub place: usize,
}

// What any answer says no to.
impl<T: Drop> From<Result<T, Refusal>> for SofaRefusal {
    ghost from_gives = { λ answer r. r ≡ refusal_as answer };

    fn from(answer: Result<T, Refusal>) -> Self {
        match answer {
            Ok(_) => SofaRefusal {
                reason: 0,
                place: 0,
            },
            Err(refusal) => SofaRefusal {
                reason: refusal.number(),
                place: refusal.place(),
            },
        }
    }
}

// Two functions, since each name is exported to C.
pub fn sofa_to_spherical(values: &mut [f32]) -> SofaRefusal
    ensures { turned_by result values.new ≡ turn_says 0 values.old }
{
    coords::convert_array_to_spherical(values).into()
}

pub fn sofa_to_cartesian(values: &mut [f32]) -> SofaRefusal
    ensures { turned_by result values.new ≡ turn_says 1 values.old }
{
    coords::convert_array_to_cartesian(values).into()
}
