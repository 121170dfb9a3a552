// Every path through the blend and the plain filter, over one small set whose rows of the neighbour table are the cases. It prints each answer and
// both outputs, values as the bits of an f32, every NaN as 7fc00000. Samples that a call leaves as they were would print as 41100000, which is 9.
#![tactic(auto)]

use delays::{Answer, Outcome};
use interpolate::{Filters, Measurements};
use mix::Responses;
use points::Point3;

// Seven measurements: one in front, one to each of four sides, one farther and one nearer.
fn cartesian() -> [f32; 21] {
    [
        1.0, 0.0, 0.0, //
        0.0, 1.0, 0.0, //
        0.0, -1.0, 0.0, //
        0.0, 0.0, 1.0, //
        0.0, 0.0, -1.0, //
        2.0, 0.0, 0.0, //
        0.5, 0.0, 0.0,
    ]
}

const NONE: u16 = 65535;

// Row 0 has all six, row 1 none, row 2 one, row 3 two pairs, row 4 one measurement six times, row 5 an entry that is no measurement,
// and row 6 such an entry as the second of a pair.
fn neighbours() -> [u16; 42] {
    [
        1, 2, 3, 4, 5, 6, //
        NONE, NONE, NONE, NONE, NONE, NONE, //
        NONE, NONE, NONE, 0, NONE, NONE, //
        0, 1, NONE, NONE, 4, 2, //
        5, 5, 5, 5, 5, 5, //
        7, NONE, NONE, NONE, NONE, NONE, //
        NONE, NONE, NONE, NONE, 0, 65534,
    ]
}

// From `first` on, each value is the one before it and `step`.
fn climb(xs: &mut [f32], first: f32, step: f32) {
    let mut next = first;
    for x in xs {
        *x = next;
        next = next + step;
    }
}

// Taps from 0.25 on, with −0, NaN and both infinities among them.
fn responses() -> [f32; 42] {
    let mut xs = [0.0; 42];
    climb(&mut xs, 0.25, 0.75);
    xs[7] = -0.0;
    xs[26] = f32::NEG_INFINITY;
    xs[38] = f32::NAN;
    xs[40] = f32::INFINITY;
    xs
}

// Delays in samples, with −0, NaN and an infinity among them.
fn delay_list() -> [f32; 15] {
    let mut xs = [0.0; 15];
    climb(&mut xs, 10.5, 3.25);
    xs[1] = -0.0;
    xs[11] = f32::INFINITY;
    xs[12] = f32::NAN;
    xs
}

// Through `io`, without a heap: a value by its bits, which no Display does. `try_finds` has the like of this line.
fn print_value(x: f32) {
    io::print_hex(1, floats::pattern(x) as u64, 8);
}

fn print_samples(name: &[u8], xs: &[f32]) {
    io::write_all(1, name);
    for (i, &x) in xs.iter().enumerate() {
        if i > 0 {
            io::write_all(1, b",");
        }
        print_value(x);
    }
    io::write_all(1, b"\n");
}

fn print_count(name: &[u8], x: u64) {
    io::write_all(1, name);
    io::print_decimal(1, x);
    io::write_all(1, b"\n");
}

// What is tried is the answer as it goes to C, with a number in the place of an enum.
fn print_answer(a: Answer) {
    if a.reason != 0 {
        print_count(b"refused=", a.reason as u64);
        print_count(b"place=", a.place as u64);
        return;
    }
    if a.blended {
        print_count(b"blended=", a.points as u64);
    } else {
        print_count(b"exact=", a.points as u64);
    }
    print_samples(b"ldelay=", &[a.left.0]);
    print_samples(b"rdelay=", &[a.right.0]);
}

// One case: the sizes, how many delays there are, the nearest's number, the query, and how long the outputs are.
// The plain filter asks for no query.
#[derive(Clone, Copy)]
struct Case {
    m: usize,
    r: usize,
    n: usize,
    delays: usize,
    nearest: usize,
    position: Option<Point3>,
    left: usize,
    right: usize,
}

// The blend, or the plain filter, over the set's lists.
fn filter(case: Case, delays: &[f32], left: &mut [f32], right: &mut [f32]) -> Outcome {
    let Case { m, r, n, .. } = case;
    if 7 < m || r < 2 || 3 < r || 3 < n {
        return Outcome::Refused(2, 0);
    }
    let cartesian = cartesian();
    let neighbours = neighbours();
    let taps = responses();
    if 42 < m * r * n {
        return Outcome::Refused(3, 0);
    }
    if m <= case.nearest {
        return Outcome::Refused(8, case.nearest);
    }
    let responses = Responses {
        taps: &taps,
        m,
        r,
        n,
    };
    let filters = Filters {
        responses,
        delays,
        rate: 48000.0,
    };
    let Some(position) = case.position else {
        return filters.get_filter_nointerp(case.nearest, left, right);
    };
    let set = Measurements {
        filters,
        cartesian: &cartesian,
        neighbours: &neighbours,
    };
    set.interpolate(case.nearest, position, left, right)
}

// Asks over the fronts of the lists, as long as the case has them, and prints the whole lists of the outputs.
fn show(case: Case, delays: &[f32], left: &mut [f32], right: &mut [f32]) {
    if delays.len() < case.delays || left.len() < case.left || right.len() < case.right {
        return;
    }
    let o = filter(
        case,
        &delays[..case.delays],
        &mut left[..case.left],
        &mut right[..case.right],
    );
    print_answer(delays::answer_of(o));
    print_samples(b"left=", left);
    print_samples(b"right=", right);
}

fn ask(case: Case) {
    let mut left = [9.0f32; 8];
    let mut right = [9.0f32; 8];
    show(case, &delay_list(), &mut left, &mut right);
}

// A case over the whole set.
fn over_all(
    delays: usize,
    nearest: usize,
    position: Option<Point3>,
    left: usize,
    right: usize,
) -> Case {
    Case {
        m: 7,
        r: 2,
        n: 3,
        delays,
        nearest,
        position,
        left,
        right,
    }
}

fn blend(name: &[u8], delays: usize, nearest: usize, position: Point3, left: usize, right: usize) {
    io::write_all(1, name);
    ask(over_all(delays, nearest, Some(position), left, right));
}

// One of the plain filter.
fn plain(name: &[u8], delays: usize, nearest: usize, left: usize, right: usize) {
    io::write_all(1, name);
    ask(over_all(delays, nearest, None, left, right));
}

fn at(x: f32, y: f32, z: f32) -> Point3 {
    Point3 { x, y, z }
}

// How many points are blended, and which of a pair.
fn counts() {
    let q = at(1.25, 0.25, -0.5);
    blend(b"four points\n", 14, 0, q, 3, 3);
    blend(b"one point\n", 14, 1, q, 3, 3);
    blend(b"two points\n", 14, 2, q, 3, 3);
    blend(b"three points\n", 14, 3, q, 3, 3);
    blend(b"a measurement thrice\n", 14, 4, q, 3, 3);
    let front = at(1.25, 0.0, 0.0);
    blend(b"ties, the first of each pair\n", 14, 0, front, 3, 3);
    let here = at(1.0, 0.0, 0.0);
    blend(b"a neighbour at the query\n", 14, 2, here, 3, 3);
}

// Exact by distance, on both sides of 1e-6 and past a bad entry; exact by the sum of the weights, far away and where distances overflow.
fn exacts() {
    let here = at(1.0, 0.0, 0.0);
    let under = at(9.9e-7, 1.0, 0.0);
    let bound = at(1e-6, 1.0, 0.0);
    let beyond = at(2.0, 0.0, 0.0);
    let far = at(1e12, 0.0, 0.0);
    let farther = at(3e38, 3e38, 0.0);
    blend(b"at the measurement\n", 14, 0, here, 3, 3);
    blend(b"below 1e-6\n", 14, 1, under, 3, 3);
    blend(b"at 1e-6\n", 14, 1, bound, 3, 3);
    blend(b"a bad entry not met\n", 14, 5, beyond, 3, 3);
    blend(b"weights too light\n", 14, 0, far, 3, 3);
    blend(b"infinite distances\n", 14, 0, farther, 3, 3);
    plain(b"plain\n", 14, 0, 3, 3);
    plain(b"plain keeps -0\n", 7, 1, 3, 3);
}

fn refusals() {
    let beside = at(1.5, 0.0, 0.0);
    let far = at(1e12, 0.0, 0.0);
    blend(b"no measurement\n", 14, 5, beside, 3, 5);
    blend(b"the second of a pair is none\n", 14, 6, beside, 8, 3);
    blend(b"bad entry, light weights\n", 14, 6, far, 3, 3);
}

// Each class of the count of delays, blended and plain.
fn delay_counts() {
    let q = at(0.5, 0.75, 0.0);
    blend(b"L = M\n", 7, 2, q, 1, 1);
    blend(b"L = M R\n", 14, 2, q, 1, 1);
    blend(b"L above M R\n", 15, 2, q, 1, 1);
    blend(b"L above R\n", 13, 2, q, 1, 1);
    blend(b"L = R\n", 2, 2, q, 1, 1);
    blend(b"L below R\n", 1, 2, q, 1, 1);
    blend(b"no delays\n", 0, 2, q, 1, 1);
    io::write_all(1, b"three receivers\n");
    ask(Case {
        m: 5,
        r: 3,
        n: 2,
        ..over_all(15, 2, Some(q), 1, 1)
    });
    io::write_all(1, b"M = R = L = 2\n");
    ask(Case {
        m: 2,
        ..over_all(2, 1, Some(q), 1, 1)
    });
}

fn plain_delay_counts() {
    plain(b"plain, L = M\n", 7, 6, 1, 1);
    plain(b"plain, L = M R, NaN\n", 14, 6, 1, 1);
    plain(b"plain, L = M R, infinite\n", 14, 5, 1, 1);
    plain(b"plain, L = R\n", 2, 6, 1, 1);
    plain(b"plain, L below R\n", 1, 6, 1, 1);
}

// Outputs shorter and longer than n, of different lengths, and empty; NaN and infinite taps; a NaN query; no taps.
fn lengths() {
    let q = at(0.25, 0.25, 0.25);
    blend(b"shorter\n", 14, 3, q, 2, 2);
    blend(b"longer\n", 14, 3, q, 8, 8);
    blend(b"shorter and longer\n", 14, 3, q, 1, 6);
    blend(b"empty\n", 14, 3, q, 0, 3);
    plain(b"plain, longer and shorter\n", 14, 6, 5, 2);
    plain(b"plain, infinite taps\n", 14, 4, 3, 3);
    let low = at(0.75, 0.0, -0.5);
    blend(b"NaN and infinite taps\n", 14, 0, low, 4, 4);
    let unknown = at(f32::NAN, 0.0, 0.0);
    blend(b"a NaN query\n", 14, 0, unknown, 3, 3);
    blend(b"a NaN query, no delays\n", 1, 0, unknown, 3, 3);
    io::write_all(1, b"no taps\n");
    ask(Case {
        n: 0,
        ..over_all(14, 3, Some(q), 2, 2)
    });
    io::write_all(1, b"plain, no taps\n");
    ask(Case {
        n: 0,
        ..over_all(14, 3, None, 2, 2)
    });
}

fn main() {
    counts();
    exacts();
    refusals();
    delay_counts();
    plain_delay_counts();
    lengths();
}
