// Asks the port again what the source was asked, and prints how many answers were compared and how many differ.
//
// Standard input holds a record for each set, as oracle/sample.rs writes and describes it (`oracle/run_all 7 320 0 sample`): what is given, and the source's
// answers, or document 01's refusals. A word is eight hexadecimal digits and one byte behind them; the first word of a record says how many follow.
// Past the end of a record every word is 0.
#![tactic(auto)]

use delays::Outcome;
use kdtree::BoundingBox;
use limits::Sizes;
use lookup::{Located, Lookup};
use mix::Ear;
use points::Point3;
use reader::{Recorded, Set};
use refusals::Refusal;
use stored::{Entries, Taps};

// How many answers were compared, and how many differ.
#[derive(Clone, Copy)]
pub struct Counts {
    pub answers: u64,
    pub differ: u64,
}

// The words of a record, where the next one stands, whether the answer is as stored so far, and the counts.
#[derive(Clone, Copy)]
pub struct Tape<'a> {
    pub words: &'a [u32],
    pub at: usize,
    pub same: bool,
    pub counts: Counts,
}

// What a set is given beside its lists, and how long these are.
// The kind is a number, as the record has it and `load` takes it, with all unknown values.
#[derive(Clone, Copy)]
pub struct Given {
    pub kind: u32,
    pub sizes: Sizes,
    pub positions: usize,
    pub responses: usize,
    pub delays: usize,
    pub angle_step: f32,
    pub radius_step: f32,
    pub rate: f32,
}

// ---- the words of a record

// Words by their places, before there is a tape of them; past the end each is 0, and no Option, as a record has it.
fn word(w: &[u32], i: usize) -> u32 {
    if i < w.len() { w[i] } else { 0 }
}

fn count(w: &[u32], i: usize) -> usize {
    word(w, i) as usize
}

// No record is near 2^32 words long.
fn past(at: usize, n: usize) -> usize {
    if at <= 0xffff_ffff && n <= 0xffff_ffff {
        at + n
    } else {
        at
    }
}

fn one_more(n: u64) -> u64 {
    if n < 0xffff_ffff { n + 1 } else { n }
}

fn value(w: &[u32], i: usize) -> f32 {
    floats::value(word(w, i))
}

// The values from a place on; a list is a part of them.
// A fixed list, of which `front` lends as much as the record has: there is no heap.
fn values(w: &[u32], at: usize) -> [f32; 288] {
    let mut xs = [0.0; 288];
    for (i, x) in xs.iter_mut().enumerate() {
        *x = value(w, past(at, i));
    }
    xs
}

// The first n of a list; none of a shorter one.
fn front<T>(xs: &[T], n: usize) -> &[T] {
    if n <= xs.len() { &xs[..n] } else { &xs[..0] }
}

// ---- comparing

impl<'a> Tape<'a> {
    fn number(self) -> usize {
        count(self.words, self.at)
    }

    fn value(self) -> f32 {
        value(self.words, self.at)
    }

    fn point(self) -> Point3 {
        Point3::from([self.value(), self.moved(1).value(), self.moved(2).value()])
    }

    fn moved(self, n: usize) -> Self {
        Tape {
            at: past(self.at, n),
            ..self
        }
    }

    fn agrees(self, ok: bool) -> Self {
        Tape {
            same: self.same & ok,
            ..self.moved(1)
        }
    }

    // The answer is over.
    fn told(self) -> Self {
        let Counts { answers, differ } = self.counts;
        let counts = Counts {
            answers: one_more(answers),
            differ: if self.same { differ } else { one_more(differ) },
        };
        Tape {
            same: true,
            counts,
            ..self
        }
    }

    fn is_number(self, n: usize) -> Self {
        self.agrees(self.number() == n)
    }

    fn is_value(self, x: f32) -> Self {
        self.agrees(word(self.words, self.at) == floats::pattern(x))
    }

    // Two functions: a value is compared by its bits, a number by itself; a trait for both would be no plainer.
    fn are_values(self, xs: &[f32]) -> Self {
        let mut t = self;
        for &x in xs {
            t = t.is_value(x);
        }
        t
    }

    fn are_numbers(self, xs: &[u16]) -> Self {
        let mut t = self;
        for &n in xs {
            t = t.is_number(n as usize);
        }
        t
    }

    fn is_allowed(self) -> Self {
        self.is_number(0).is_number(0)
    }

    fn is_refusal(self, r: Refusal) -> Self {
        self.is_number(r.number() as usize).is_number(r.place())
    }
}

// ---- the load

fn given_by(w: &[u32]) -> Given {
    Given {
        kind: word(w, 0),
        sizes: Sizes {
            m: count(w, 1),
            c: count(w, 2),
            r: count(w, 3),
            n: count(w, 4),
        },
        positions: count(w, 5),
        responses: count(w, 6),
        delays: count(w, 7),
        angle_step: value(w, 8),
        radius_step: value(w, 9),
        rate: value(w, 10),
    }
}

fn nothing() -> Lookup {
    Lookup {
        bounds: BoundingBox {
            min_x: 0.0,
            min_y: 0.0,
            min_z: 0.0,
            max_x: 0.0,
            max_y: 0.0,
            max_z: 0.0,
        },
        phi_min: 0.0,
        phi_max: 0.0,
        theta_min: 0.0,
        theta_max: 0.0,
        radius_min: 0.0,
        radius_max: 0.0,
    }
}

fn is_look(t: Tape, look: Lookup) -> Tape {
    let b = look.bounds;
    t.are_values(&[b.min_x, b.min_y, b.min_z, b.max_x, b.max_y, b.max_z])
        .are_values(&[look.phi_min, look.phi_max, look.theta_min, look.theta_max])
        .are_values(&[look.radius_min, look.radius_max])
}

fn is_loaded(t: Tape, loaded: Result<Lookup, Refusal>) -> Tape {
    match loaded {
        Ok(look) => is_look(t.is_allowed(), look),
        Err(r) => is_look(t.is_refusal(r), nothing()),
    }
}

// The four lists, as far as the record has them.
fn are_lists<'a>(
    t: Tape<'a>,
    left: &[u16],
    right: &[u16],
    neighbours: &[u16],
    cartesian: &[f32],
) -> Tape<'a> {
    let m = t.number();
    if 8 < m {
        return t.agrees(false);
    }
    t.moved(1)
        .are_numbers(front(left, m))
        .are_numbers(front(right, m))
        .are_numbers(front(neighbours, 6 * m))
        .are_values(front(cartesian, 3 * m))
}

// ---- queries

// A set that was loaded, and its table.
#[derive(Clone, Copy)]
struct Loaded<'a> {
    set: Set<'a>,
    neighbours: &'a [u16],
}

// A step for each of as many as the tape says.
fn each<'a, F: Fn(Tape<'a>) -> Tape<'a>>(t: Tape<'a>, step: F) -> Tape<'a>
    requires { F.IsAlwaysCallable step }
{
    let mut s = t.moved(1);
    for _ in 0..t.number() {
        s = step(s);
    }
    s
}

fn is_found(t: Tape, found: Located) -> Tape {
    match found {
        Located::At(n) => t.is_allowed().is_number(n as usize),
        Located::Refused(r) => t.is_refusal(r).is_number(65535),
    }
}

fn is_filtered<'a>(t: Tape<'a>, o: Outcome, left: &[f32; 3], right: &[f32; 3]) -> Tape<'a> {
    let a = delays::answer_of(o);
    t.is_number(a.reason as usize)
        .is_number(a.place)
        .is_number(usize::from(a.blended))
        .is_number(a.points)
        .are_values(&[a.left.0, a.right.0])
        .are_values(left)
        .are_values(right)
        .told()
}

fn find<'a>(t: Tape<'a>, set: &Set, q: Point3) -> Tape<'a> {
    let sizes = set.recorded.sizes;
    let found = set.look.find(sizes, set.cartesian, set.left, set.right, q);
    let mut c = <[f32; 3]>::from(q);
    let moved = set
        .look
        .find_mut(sizes, set.cartesian, set.left, set.right, &mut c);
    is_found(is_found(t, found).told(), moved)
        .are_values(&c)
        .told()
}

// `plain` and `single` are the like of this, and differ in the call that they try.
fn blend<'a>(t: Tape<'a>, loaded: &Loaded, q: Point3) -> Tape<'a> {
    let mut l = [1.0; 3];
    let mut r = [1.0; 3];
    let o = loaded.set.filter(loaded.neighbours, q, &mut l, &mut r);
    is_filtered(t, o, &l, &r)
}

fn plain<'a>(t: Tape<'a>, set: &Set, q: Point3) -> Tape<'a> {
    let mut l = [1.0; 3];
    let mut r = [1.0; 3];
    let o = set.filter_nointerp(q, &mut l, &mut r);
    is_filtered(t, o, &l, &r)
}

fn query<'a>(t: Tape<'a>, loaded: &Loaded) -> Tape<'a> {
    let q = t.point();
    let found = find(t.moved(3), &loaded.set, q);
    plain(blend(found, loaded, q), &loaded.set, q)
}

// ---- by number

fn is_part<'a>(t: Tape<'a>, part: Result<Taps, Refusal>, taps: &[f32]) -> Tape<'a> {
    let placed = match part {
        Ok(p) => t.is_allowed().is_number(p.start).is_number(p.count),
        Err(r) => t.is_refusal(r).is_number(0).is_number(0),
    };
    placed.are_values(taps).told()
}

fn is_ear<'a>(t: Tape<'a>, set: Recorded, number: usize, ear: Ear) -> Tape<'a> {
    let part = stored::part_of(set.sizes, set.responses.len(), number, ear);
    is_part(
        t,
        part,
        stored::response(set.sizes, set.responses, number, ear),
    )
}

fn is_around(t: Tape, around: Result<Entries, Refusal>) -> Tape {
    match around {
        Ok(e) => t
            .is_allowed()
            .are_numbers(&[e.phi_plus, e.phi_minus, e.theta_plus])
            .are_numbers(&[e.theta_minus, e.radius_plus, e.radius_minus]),
        Err(r) => t.is_refusal(r).are_numbers(&[65535; 6]),
    }
}

fn single<'a>(t: Tape<'a>, set: Recorded, number: usize) -> Tape<'a> {
    let mut l = [1.0; 3];
    let mut r = [1.0; 3];
    let o = set.filter_number(number, &mut l, &mut r);
    is_filtered(t, o, &l, &r)
}

fn by_number<'a>(t: Tape<'a>, loaded: &Loaded) -> Tape<'a> {
    let set = loaded.set.recorded;
    let number = t.number();
    let one = single(t.moved(1), set, number);
    let left = is_ear(one, set, number, Ear::Left);
    let right = is_ear(left, set, number, Ear::Right);
    let around = stored::neighbors_of(set.sizes, loaded.neighbours, number);
    is_around(right, around).told()
}

// ---- the longest delay, and the conversions

fn is_longest<'a>(t: Tape<'a>, delays: &[f32]) -> Tape<'a> {
    let s = t.moved(1);
    match stored::max_delay(delays, t.value()) {
        Ok(longest) => s.is_allowed().is_value(longest.0).told(),
        Err(r) => s.is_refusal(r).is_value(0.0).told(),
    }
}

// Two triplets and two values left over.
fn is_converted<'a, F: FnOnce(&mut [f32]) -> Result<(), Refusal>>(
    t: Tape<'a>,
    convert: F,
) -> Tape<'a>
    requires { F.IsAlwaysCallable convert }
{
    let mut xs = [0.0; 8];
    for (i, x) in xs.iter_mut().enumerate() {
        *x = t.moved(i).value();
    }
    let converted = convert(&mut xs);
    let s = t.moved(8);
    let told = match converted {
        Ok(()) => s.is_allowed(),
        Err(r) => s.is_refusal(r),
    };
    told.are_values(&xs).told()
}

// ---- a record

// The first left link as the tape has it, where it gives one.
fn relink(link: u32, left: &mut [u16; 8]) {
    if link < 65536 {
        left[0] = link as u16;
    }
}

// What is asked of a set: queries, and then numbers.
fn follow<'a>(t: Tape<'a>, loaded: &Loaded) -> Tape<'a> {
    let asked = each(t, |s| query(s, loaded));
    each(asked, |s| by_number(s, loaded))
}

// A load and what follows from it.
fn over_lists<'a>(t: Tape<'a>, g: Given, positions: &[f32], recorded: Recorded) -> Tape<'a> {
    let mut left = [7u16; 8];
    let mut right = [7u16; 8];
    let mut neighbours = [9u16; 48];
    let mut cartesian = [0.5f32; 24];
    let answer = loads::load(
        g.kind,
        g.sizes,
        positions,
        recorded.responses,
        g.angle_step,
        g.radius_step,
        g.rate,
        &mut left,
        &mut right,
        &mut neighbours,
        &mut cartesian,
    );
    let lists = are_lists(is_loaded(t, answer), &left, &right, &neighbours, &cartesian).told();
    relink(word(lists.words, lists.at), &mut left);
    let set = Set {
        recorded,
        look: answer.unwrap_or(nothing()),
        cartesian: &cartesian,
        left: &left,
        right: &right,
    };
    let loaded = Loaded {
        set,
        neighbours: &neighbours,
    };
    follow(lists.moved(1), &loaded)
}

fn record(w: &[u32], counts: Counts) -> Counts {
    let g = given_by(w);
    let taps = past(11, g.positions);
    let after = past(taps, g.responses);
    let positions = values(w, 11);
    let responses = values(w, taps);
    let delays = values(w, after);
    let t = Tape {
        words: w,
        at: past(after, g.delays),
        same: true,
        counts,
    };
    let recorded = Recorded {
        sizes: g.sizes,
        responses: front(&responses, g.responses),
        delays: front(&delays, g.delays),
        rate: g.rate,
    };
    let asked = over_lists(t, g, front(&positions, g.positions), recorded);
    let longest = is_longest(asked, recorded.delays);
    let spherical = is_converted(longest, coords::convert_array_to_spherical);
    is_converted(spherical, coords::convert_array_to_cartesian).counts
}

// ---- reading

// The word that stands at place i of the bytes, 0 where it is none.
fn read_word(bytes: &[u8], i: usize) -> u32 {
    if i < 1024 {
        let at = 9 * i;
        if at + 8 <= bytes.len() {
            return text::hex(&bytes[at..at + 8]).unwrap_or(0);
        }
    }
    0
}

fn words(bytes: &[u8]) -> [u32; 1024] {
    let mut w = [0; 1024];
    for (i, x) in w.iter_mut().enumerate() {
        *x = read_word(bytes, i);
    }
    w
}

// How many words the next record has, 0 at the end of the input.
// 0, and no Option: a record says of itself how many words follow, and one of none ends the input, too.
fn head() -> usize {
    let mut bytes = [0u8; 9];
    let n = io::read_full(0, &mut bytes);
    if n < 9 {
        return 0;
    }
    read_word(&bytes, 0) as usize
}

fn tell(counts: Counts) {
    io::print_decimal(1, counts.answers);
    io::write_all(1, b" answers, ");
    io::print_decimal(1, counts.differ);
    io::write_all(1, b" differ\n");
}

fn read_front(bytes: &mut [u8], n: usize) -> bool {
    bytes.len() >= n && io::read_full(0, &mut bytes[..n]) == n
}

// The next record, of n words; one that is too long or cut off is passed over.
fn next_record(counts: Counts, n: usize) -> Counts {
    if 1024 < n {
        return counts;
    }
    let mut bytes = [0u8; 9216];
    if !read_front(&mut bytes, 9 * n) {
        return counts;
    }
    let w = words(front(&bytes, 9 * n));
    record(front(&w, n), counts)
}

fn main() {
    let mut counts = Counts {
        answers: 0,
        differ: 0,
    };
    for _ in 0..10000_usize {
        let n = head();
        if n == 0 {
            break;
        }
        counts = next_record(counts, n);
    }
    tell(counts);
}
