// What a loaded set is asked: reader.rs over lent lists, for every input, with nothing asked of the caller.
//
// A set is lent as two structs of references: `Recorded`, what its measurements are made of, and `Set`, what a search goes by besides.
// `Set::filter` blends, `Set::filter_nointerp` gives the nearest measurement as it is, `Recorded::filter_number` a measurement by its number:
// `filter_says`, `plain_says` and `number_says` (specs/Queries.antt) are their answer and what both outputs then hold. The calls that search and
// mix nothing are crate `stored`'s. What is refused, and in which order, is crate `limits`'s; the blend is crate `interpolate`'s.
//
// proofs/Near.antt: the number that a search answers is a measurement's.
#![tactic(auto)]

ghost use Rattle.std.specs.Prelude.{◌≡◌, ◌≢◌, ℕ, ◌*◌, ◌<◌, ◌≤◌, length};
ghost use Rattle.kdtree.specs.Tree.{TreeHolds};
ghost use Rattle.mix.specs.Mix.{Sized};
ghost use Rattle.interpolate.specs.Blend.{filter_of};
ghost use Rattle.lookup.specs.Lookup.{locate_of};
ghost use Rattle.lookup.specs.declared.Located.TheVariants.{At, Refused};
ghost use Rattle.reader.specs.Queries.{refused_by, filter_says, plain_says, number_says};

use delays::Outcome;
use interpolate::{Filters, Measurements};
use kdtree::Tree;
use limits::{Lengths, Sizes, TreeLengths};
use lookup::{Located, Lookup};
use mix::Responses;
use points::Point3;
use refusals::Refusal;

// What the measurements of a set are made of, as it is lent: their sizes, their responses, their delays in samples, and the rate.
#[derive(Clone, Copy)]
pub struct Recorded<'a> {
    pub sizes: Sizes,
    pub responses: &'a [f32],
    pub delays: &'a [f32],
    pub rate: f32,
}

// And what a search among them goes by: where they are, the links of their tree, and its box and bounds.
// Lists side by side, with their sizes beside them: a host lends them so (the C interface), and there is no heap.
#[derive(Clone, Copy)]
pub struct Set<'a> {
    pub recorded: Recorded<'a>,
    pub look: Lookup,
    pub cartesian: &'a [f32],
    pub left: &'a [u16],
    pub right: &'a [u16],
}

// The refusal of a find that names no measurement.
// A find has an enum of its own (`Located`), opened by `let .. else`: the other case leaves with this.
fn refusal_of(found: Located) -> Refusal
    requires { (n : ℕ) → found ≢ At n }
    ensures { found ≡ Refused result }
{
    match found {
        Located::Refused(refusal) => refusal,
        Located::At(_) => unreachable!(),
    }
}

impl<'a> Recorded<'a> {
    // What a blend goes by, where the sizes and the responses were judged.
    // No `From`: what is made has an invariant, which only judged sizes have.
    fn filters(&self) -> Filters<'a, 'a>
        requires { Sized self.now.sizes.m self.now.sizes.r self.now.sizes.n
            × (self.now.sizes.m * self.now.sizes.r * self.now.sizes.n ≤ length self.now.responses.now) }
        ensures { (result.responses.m ≡ self.now.sizes.m)
            × (result.responses.r ≡ self.now.sizes.r)
            × (result.responses.n ≡ self.now.sizes.n)
            × (result.responses.taps.now ≡ self.now.responses.now)
            × (result.delays.now ≡ self.now.delays.now)
            × (result.rate ≡ self.now.rate) }
    {
        Filters {
            responses: Responses {
                taps: self.responses,
                m: self.sizes.m,
                r: self.sizes.r,
                n: self.sizes.n,
            },
            delays: self.delays,
            rate: self.rate,
        }
    }

    // A measurement's filter by its number, or refusal 2, 3, 6 or 8.
    // No `?` here and below: a refusal sets both outputs to +0, too. They are lent one by one (the C interface).
    #[tactic(auto, unfolding(crate::specs::Queries::number_says, crate::specs::Queries::allowed, crate::specs::Queries::nearest_or))]
    pub fn filter_number(
        &self,
        number: usize,
        out_left: &mut [f32],
        out_right: &mut [f32],
    ) -> Outcome
        ensures { filter_of result out_left.new out_right.new
            ≡ number_says self.now.sizes self.now.responses.now self.now.delays.now self.now.rate number
            (length out_left.old) (length out_right.old) }
    {
        let told = limits::judge_number(self.sizes, self.responses.len(), self.rate, number);
        if let Err(refusal) = told {
            return interpolate::refuse_by(refusal, out_left, out_right);
        }
        self.filters()
            .get_filter_nointerp(number, out_left, out_right)
    }
}

impl<'a> Set<'a> {
    // The measurement nearest to the clamped query, where the sizes and the lists of the tree were judged.
    fn nearest(&self, q: Point3) -> Located
        requires { (0 < self.now.recorded.sizes.m)
            × TreeHolds self.now.recorded.sizes.m self.now.cartesian.now self.now.left.now self.now.right.now }
        ensures { result ≡ locate_of self.now.look self.now.recorded.sizes.m self.now.cartesian.now self.now.left.now self.now.right.now q }
    {
        let tree = Tree {
            count: self.recorded.sizes.m,
            positions: self.cartesian,
            left: self.left,
            right: self.right,
        };
        self.look.locate(&tree, q)
    }

    // The blended filter at a query, or refusal 2, 3, 6, 7 or 9. The query is drawn to the measured radii to find the nearest measurement;
    // the blend measures from it as it was given.
    #[tactic(auto, unfolding(crate::specs::Queries::filter_says, crate::specs::Queries::allowed, crate::specs::Queries::nearest_or))]
    pub fn filter(
        &self,
        neighbours: &[u16],
        q: Point3,
        out_left: &mut [f32],
        out_right: &mut [f32],
    ) -> Outcome
        ensures { filter_of result out_left.new out_right.new
            ≡ filter_says self.now.recorded.sizes self.now.look self.now.cartesian.now self.now.left.now self.now.right.now neighbours.now
            self.now.recorded.responses.now self.now.recorded.delays.now self.now.recorded.rate q (length out_left.old) (length out_right.old) }
    {
        let Recorded {
            sizes,
            responses,
            delays,
            rate,
        } = self.recorded;
        let lengths = Lengths {
            tree: TreeLengths::of(self.cartesian, self.left, self.right),
            responses: responses.len(),
            neighbours: neighbours.len(),
        };
        let told = limits::judge_filter(sizes, lengths, rate, q);
        if let Err(refusal) = told {
            return interpolate::refuse_by(refusal, out_left, out_right);
        }
        let found = self.nearest(q);
        let Located::At(nearest) = found else {
            return interpolate::refuse_by(refusal_of(found), out_left, out_right);
        };
        let measurements = Measurements {
            filters: self.recorded.filters(),
            cartesian: self.cartesian,
            neighbours,
        };
        measurements.interpolate(nearest as usize, q, out_left, out_right)
    }

    // The nearest measurement's filter, nothing blended, or refusal 2, 3, 6, 7 or 9.
    #[tactic(auto, unfolding(crate::specs::Queries::plain_says, crate::specs::Queries::allowed, crate::specs::Queries::nearest_or))]
    pub fn filter_nointerp(&self, q: Point3, out_left: &mut [f32], out_right: &mut [f32]) -> Outcome
        ensures { filter_of result out_left.new out_right.new
            ≡ plain_says self.now.recorded.sizes self.now.look self.now.cartesian.now self.now.left.now self.now.right.now
            self.now.recorded.responses.now self.now.recorded.delays.now self.now.recorded.rate q (length out_left.old) (length out_right.old) }
    {
        let Recorded {
            sizes,
            responses,
            rate,
            ..
        } = self.recorded;
        let lengths = TreeLengths::of(self.cartesian, self.left, self.right);
        let told = limits::judge_filter_nointerp(sizes, lengths, responses.len(), rate, q);
        if let Err(refusal) = told {
            return interpolate::refuse_by(refusal, out_left, out_right);
        }
        let found = self.nearest(q);
        let Located::At(nearest) = found else {
            return interpolate::refuse_by(refusal_of(found), out_left, out_right);
        };
        self.recorded
            .filters()
            .get_filter_nointerp(nearest as usize, out_left, out_right)
    }
}
