// Everything that a C or Rust host can call, and nothing else: thin functions over the crates below. The crate `sofa_c` exports them to C.
//
// An enum does not cross the border, so each answer is a struct of numbers, made `From` it. Reason 0 means that
// nothing was refused; any other is document 01's number, with its place: so an answer of any type becomes a
// `SofaRefusal` (convert.rt), and what stands beside these two is a value where nothing is there. The definitions
// in specs/ say what stands for each case: Border for the angles and the version, Tree for the bare tree (tree.rt),
// Convert for refusals and the conversions (convert.rt), Set for a set (set.rt).
//
// proofs/Unique.antt: no contract here leaves a choice, proved of each function's own contract. The
// modules are public so that the crate sofa_laws can cite those contracts too.
#![tactic(auto)]

ghost use Rattle.std.specs.Prelude.{◌≡◌};
ghost use Rattle.root.specs.Root.{root_of};
ghost use Rattle.angles.specs.Says.{sine_says, cosine_says, arctan_says};
ghost use Rattle.sofa.specs.Border.{value_as, version_number};

use convert::SofaRefusal;
use refusals::Refusal;

pub mod convert;
pub mod set;
pub mod tree;

pub fn sofa_version() -> u32
    ensures { result ≡ version_number }
{
    0 * 65536 + 1 * 256 + 0
}

#[repr(C)]
#[derive(Clone, Copy)]
pub struct SofaValue {
    pub reason: u32,
    pub place: usize,
    pub value: f32,
}

impl From<Result<f32, Refusal>> for SofaValue {
    ghost from_gives = { λ answer v. v ≡ value_as answer };

    fn from(answer: Result<f32, Refusal>) -> Self {
        let SofaRefusal { reason, place } = answer.into();
        SofaValue {
            reason,
            place,
            value: answer.unwrap_or(0.0),
        }
    }
}

// One function for each name that C calls, alike as they are.
pub fn sofa_root(x: f32) -> f32
    ensures { result ≡ root_of x }
{
    root::root(x)
}

pub fn sofa_sine(x: f32) -> SofaValue
    ensures { result ≡ value_as (sine_says x) }
{
    angles::sine(x).into()
}

pub fn sofa_cosine(x: f32) -> SofaValue
    ensures { result ≡ value_as (cosine_says x) }
{
    angles::cosine(x).into()
}

pub fn sofa_arctangent(y: f32, x: f32) -> SofaValue
    ensures { result ≡ value_as (arctan_says y x) }
{
    angles::arctangent(y, x).into()
}
