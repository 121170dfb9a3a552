// What a set in the text form answers, over the lists that its lines filled: `load` after its last line, and the block of each query.
//
// `load` equals `set_of` and `Ready::answer` equals `answered_of`, which writes the block `answer_block` (specs/Answers.antt), by the definitions of
// crates `loads`, `lookup`, `reader` and `blocks`. proofs/Found.antt: where the filter is answered its measurement was found, so that a block
// names a number or tells the filter's own refusal (`found_where_answered`). proofs/Few.antt: a set that was loaded has two ears and a
// measurement, so that n is at most 2048 (`ready_few`).
#![tactic(auto)]

ghost use Rattle.std.specs.Prelude.{◌≡◌, ◌+◌, ◌*◌, ◌≤◌, length};
ghost use Rattle.interpolate.specs.Blend.{filter_of};
ghost use Rattle.loads.specs.Load.{work_of, load_as};
ghost use Rattle.answers.specs.Answers.{sizes_in, set_of, nearest_number, filtered_of, answered_as, answered_of};

use delays::Outcome;
use limits::Sizes;
use lookup::{Located, Lookup};
use points::Point3;
use reader::{Recorded, Set};
use refusals::Refusal;
use settext::State;

// A function, and no `From`: both types are other crates'.
fn sizes_of(s: State) -> Sizes
    ensures { result ≡ sizes_in s }
{
    Sizes {
        m: s.m as usize,
        c: 3,
        r: s.r as usize,
        n: s.n as usize,
    }
}

// The load of a set whose lines were all well formed, or refusal 1 to 6. The lists stand one by one, as crate `loads` takes them.
#[tactic(auto, unfolding(crate::specs::Answers::set_of))]
pub fn load(
    s: State,
    positions: &[f32],
    responses: &[f32],
    left: &mut [u16],
    right: &mut [u16],
    neighbours: &mut [u16],
    cartesian: &mut [f32],
) -> Result<Lookup, Refusal>
    requires { 3 * s.m ≤ length positions.now }
    ensures { load_as result (work_of left.new right.new neighbours.new cartesian.new)
        ≡ set_of s positions.now (length responses.now) (work_of left.old right.old neighbours.old cartesian.old) }
{
    let count = 3 * (s.m as usize);
    loads::load(
        s.kind,
        sizes_of(s),
        &positions[..count],
        responses,
        s.astep,
        s.rstep,
        s.rate,
        left,
        right,
        neighbours,
        cartesian,
    )
}

// A set that was loaded: what its keys said, and what its queries go by.
// Not a `reader::Set`: sizes, rate and how many delays count are the state's. The lists are fixed: no heap.
#[derive(Clone, Copy)]
pub struct Ready<'a> {
    pub state: State,
    pub look: Lookup,
    pub cartesian: &'a [f32],
    pub left: &'a [u16],
    pub right: &'a [u16],
    pub neighbours: &'a [u16],
    pub responses: &'a [f32],
    pub delays: &'a [f32],
    pub ghost delayed: { state.delays ≤ length delays.now },
}

impl Ready<'_> {
    #[tactic(auto, unfolding(crate::specs::Answers::nearest_number))]
    fn nearest(&self, q: Point3) -> Located
        ensures { result
            ≡ nearest_number self.now.state self.now.look
            (work_of self.now.left.now self.now.right.now self.now.neighbours.now self.now.cartesian.now) q }
    {
        let sizes = sizes_of(self.state);
        self.look
            .find(sizes, self.cartesian, self.left, self.right, q)
    }

    // The filter at a query; both outputs are n values long.
    #[tactic(auto, unfolding(crate::specs::Answers::filtered_of))]
    fn ask(&self, q: Point3, out_left: &mut [f32], out_right: &mut [f32]) -> Outcome
        requires { (length out_left.old ≡ self.now.state.n)
            × (length out_right.old ≡ self.now.state.n) }
        ensures { filter_of result out_left.new out_right.new
            ≡ filtered_of self.now.state self.now.look
            (work_of self.now.left.now self.now.right.now self.now.neighbours.now self.now.cartesian.now)
            self.now.responses.now self.now.delays.now q }
    {
        let count = self.state.delays as usize;
        let set = Set {
            recorded: Recorded {
                sizes: sizes_of(self.state),
                responses: self.responses,
                delays: &self.delays[..count],
                rate: self.state.rate,
            },
            look: self.look,
            cartesian: self.cartesian,
            left: self.left,
            right: self.right,
        };
        set.filter(self.neighbours, q, out_left, out_right)
    }

    // The block of a query at the front of out: how many bytes it has. Both outputs are n values long, and hold the filter then.
    pub fn answer(
        &self,
        q: Point3,
        out_left: &mut [f32],
        out_right: &mut [f32],
        out: &mut [u8],
    ) -> usize
        requires { (length out_left.old ≡ self.now.state.n)
            × (length out_right.old ≡ self.now.state.n)
            × (18 * self.now.state.n + 120 ≤ length out.old) }
        ensures { answered_as result out.new out_left.new out_right.new
            ≡ answered_of self.now.state self.now.look
            (work_of self.now.left.now self.now.right.now self.now.neighbours.now self.now.cartesian.now)
            self.now.responses.now self.now.delays.now q out.old }
    {
        let found = self.nearest(q);
        let outcome = self.ask(q, out_left, out_right);
        blocks::block(outcome, found, out_left, out_right, out)
    }
}
