// One ear of a filter: the taps of one to four measurements, weighed and added up in one pass over the samples, or the taps of one as they are.
//
// Copies stop at the shorter of n and the output, and the rest of the output is +0: `out_of` (specs/Mix.antt) says what a whole output then
// holds, sample by sample. `mix` is the inner loop. How many points it adds up is part of its type, so that each count has a loop of its own, and
// no index is tested: the contract bounds the places.
#![tactic(auto)]

ghost use Rattle.std.specs.Prelude.{◌≡◌, ◌+◌, ◌*◌, ◌≤◌, ◌<◌, length};
ghost use Rattle.std.specs.List.{All};
ghost use Rattle.lists.specs.Over.{over, upto};
ghost use Rattle.mix.specs.Mix.{receiver_of, start_of, tap_of, sample_of, out_of, tailed, list_of, Sized, Placed};

// Two receivers are asked for, the first and the second of each measurement.
#[derive(Clone, Copy)]
pub enum Ear {
    Left,
    Right,
}

impl Ear {
    // By a match, not `as usize`: it is document 01's number of each receiver, whatever the order of the cases.
    pub fn receiver(self) -> usize
        ensures { result ≡ receiver_of self }
    {
        match self {
            Ear::Left => 0,
            Ear::Right => 1,
        }
    }
}

// A measurement and its weight.
#[derive(Clone, Copy)]
pub struct Share {
    pub number: usize,
    pub weight: f32,
}

// One to four points, in order: the first `count` places. Places by value and their count, since no memory is taken for a list of so few.
// `Placed` is asked with each call, since it speaks of the set's m: a ghost field would have to carry m along.
#[derive(Clone, Copy)]
pub struct Points {
    pub count: usize,
    pub a: Share,
    pub b: Share,
    pub c: Share,
    pub d: Share,
}

// The taps of M measurements, for each of R receivers, N samples each, one after the other, at the front of a lent list.
#[derive(Clone, Copy)]
pub struct Responses<'a> {
    pub taps: &'a [f32],
    pub m: usize,
    pub r: usize,
    pub n: usize,
    pub ghost sized: { Sized m r n },
    pub ghost whole: { m * r * n ≤ length taps.now },
}

// Where the taps of measurement k for an ear start.
// By numbers and no `Responses`: it is also asked where only the sizes are known.
pub fn start(k: usize, r: usize, n: usize, ear: Ear) -> usize
    requires { (k < 16384)
        × (r ≤ 8)
        × (n ≤ 8192) }
    ensures { result ≡ start_of r n (receiver_of ear) k }
{
    (k * r + ear.receiver()) * n
}

// +0 from sample k on.
pub fn silence(out: &mut [f32], k: usize)
    requires { k ≤ length out.old }
    ensures { out.new ≡ tailed k out.old }
{
    let rest = out.len() - k;
    lists::zeros(&mut out[k..], rest);
}

impl<'a> Responses<'a> {
    // The first k samples of an ear: the taps of these points, weighed and added up in their order, in one pass.
    fn mix<const K: usize>(&self, points: &[Share; K], ear: Ear, k: usize, out: &mut [f32])
        requires { All (λ p. p.number < self.now.m) points.now
            × (k ≤ self.now.n)
            × (k ≤ length out.old) }
        ensures { out.new ≡ over (upto (sample_of self.now.taps.now self.now.r self.now.n (receiver_of ear) points.now) k) out.old }
    {
        // By value: the loop writes floats, and may not wait for a size that it could have changed.
        let Responses { taps, r, n, .. } = *self;
        for i in 0..k {
            let mut sum = 0.0;
            for p in points {
                sum += taps[start(p.number, r, n, ear) + i] * p.weight;
            }
            out[i] = sum;
        }
    }

    // The first k samples of an ear's blend.
    // The count chooses the size of one generic loop: the places are fields, so that it is no length of a list.
    fn head(&self, p: Points, ear: Ear, k: usize, out: &mut [f32])
        requires { Placed self.now.m p
            × (k ≤ self.now.n)
            × (k ≤ length out.old) }
        ensures { out.new ≡ over (upto (sample_of self.now.taps.now self.now.r self.now.n (receiver_of ear) (list_of p)) k) out.old }
    {
        let count = p.count;
        match count {
            1 => self.mix(&[p.a], ear, k, out),
            2 => self.mix(&[p.a, p.b], ear, k, out),
            3 => self.mix(&[p.a, p.b, p.c], ear, k, out),
            _ => self.mix(&[p.a, p.b, p.c, p.d], ear, k, out),
        }
    }

    // An ear of a blend: the shorter of n and the output, then +0.
    pub fn blend_ear(&self, p: Points, ear: Ear, out: &mut [f32])
        requires { Placed self.now.m p }
        ensures { out.new ≡ out_of (sample_of self.now.taps.now self.now.r self.now.n (receiver_of ear) (list_of p)) self.now.n (length out.old) }
    {
        let k = self.n.min(out.len());
        self.head(p, ear, k, out);
        silence(out, k);
    }

    // An ear of one measurement, its taps as they are.
    pub fn copy_ear(&self, number: usize, ear: Ear, out: &mut [f32])
        requires { number < self.now.m }
        ensures { out.new ≡ out_of (λ i. tap_of self.now.taps.now self.now.r self.now.n (receiver_of ear) i number) self.now.n (length out.old) }
    {
        let k = self.n.min(out.len());
        let a = start(number, self.r, self.n, ear);
        lists::copy(&self.taps[a..], out, k);
        silence(out, k);
    }
}
