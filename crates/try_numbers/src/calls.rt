// Each refusal 1 to 8 with its place, by every call that can give it, and several at once.
use crate::show;
use limits::{Lengths, Sizes, TreeLengths};
use points::Point3;

// Two ears, one tap.
fn sized(m: usize) -> Sizes {
    Sizes {
        m,
        c: 3,
        r: 2,
        n: 1,
    }
}

fn lent(
    cartesian: usize,
    left: usize,
    right: usize,
    responses: usize,
    neighbours: usize,
) -> Lengths {
    Lengths {
        tree: TreeLengths {
            cartesian,
            left,
            right,
        },
        responses,
        neighbours,
    }
}

pub fn point(x: u32, y: u32, z: u32) -> Point3 {
    Point3::from([floats::value(x), floats::value(y), floats::value(z)])
}

fn lengths(l: Lengths) {
    let t = l.tree;
    show::word(b" lists");
    show::decimal(t.cartesian);
    show::decimal(t.left);
    show::decimal(t.right);
    show::decimal(l.responses);
    show::decimal(l.neighbours);
}

// A kind is a number, as `judge_load` takes it, so that unknown ones are tried too.
// One position, of the kind.
fn load(kind: u32, m: usize, l: Lengths, p: Point3, astep: u32, rstep: u32, rate: u32) {
    let a = floats::value(astep);
    let b = floats::value(rstep);
    let c = floats::value(rate);
    show::word(b"load");
    show::decimal(kind as usize);
    show::decimal(m);
    lengths(l);
    show::word(b" position");
    show::hex3(p.x, p.y, p.z);
    show::word(b" steps and rate");
    show::hex3(a, b, c);
    let xs = <[f32; 3]>::from(p);
    show::verdict(limits::judge_load(kind, sized(m), l, &xs, a, b, c));
}

fn loads_kind() {
    let l = lent(3, 1, 1, 2, 6);
    let p = point(0x3f80_0000, 0x8000_0000, 0x0000_0001);
    load(0, 1, l, p, 0x3f00_0000, 0x3c23_d70a, 0x473b_8000);
    load(1, 1, l, p, 0x3f00_0000, 0x3c23_d70a, 0x473b_8000);
    load(2, 1, l, p, 0x3f00_0000, 0x3c23_d70a, 0x473b_8000);
    load(4294967295, 1, l, p, 0x3f00_0000, 0x3c23_d70a, 0x473b_8000);
    load(0, 0, l, p, 0x3f00_0000, 0x3c23_d70a, 0x473b_8000);
    load(0, 16385, l, p, 0x3f00_0000, 0x3c23_d70a, 0x473b_8000);
    load(0, 2, l, p, 0x3f00_0000, 0x3c23_d70a, 0x473b_8000);
}

// Lists of these lengths, with all else allowed.
fn over(l: Lengths) {
    let p = point(0x3f80_0000, 0x0000_0000, 0x0000_0000);
    load(0, 1, l, p, 0x3f00_0000, 0x3c23_d70a, 0x473b_8000);
}

fn loads_lists() {
    over(lent(2, 1, 1, 2, 6));
    over(lent(3, 0, 1, 2, 6));
    over(lent(3, 1, 0, 2, 6));
    over(lent(3, 1, 1, 1, 6));
    over(lent(3, 1, 1, 2, 5));
    over(lent(4, 2, 2, 3, 7));
}

// A position value, with all else allowed.
fn at(kind: u32, x: u32, y: u32, z: u32) {
    load(
        kind,
        1,
        lent(3, 1, 1, 2, 6),
        point(x, y, z),
        0x3f00_0000,
        0x3c23_d70a,
        0x473b_8000,
    );
}

fn loads_values() {
    at(0, 0x7fc0_0000, 0x7fc0_0000, 0x7fc0_0000);
    at(0, 0x461c_4000, 0x7f80_0000, 0x461c_4001);
    at(0, 0xc61c_4000, 0x461c_4000, 0x461c_4001);
    at(1, 0x4434_0000, 0xc434_0000, 0x8000_0000);
    at(1, 0x4434_0000, 0xc434_0000, 0x8000_0001);
    at(1, 0x4434_0001, 0xc434_0000, 0x8000_0000);
    at(1, 0x0000_0000, 0xc434_0001, 0x461c_4000);
}

// Steps and rate, with all else allowed.
fn paced(astep: u32, rstep: u32, rate: u32) {
    let p = point(0x3f80_0000, 0x0000_0000, 0x0000_0000);
    load(0, 1, lent(3, 1, 1, 2, 6), p, astep, rstep, rate);
}

fn loads_steps() {
    paced(0x4234_0000, 0x3f80_0000, 0x48bb_8000);
    paced(0x4234_0001, 0x3f80_0000, 0x48bb_8000);
    paced(0x3dcc_cccd, 0x3a83_126f, 0x447a_0000);
    paced(0x3dcc_cccd, 0x3a83_126e, 0x447a_0000);
    paced(0x7fc0_0000, 0x7fc0_0000, 0x7fc0_0000);
    paced(0x3f00_0000, 0x7f80_0000, 0x7fc0_0000);
    paced(0x3f00_0000, 0x3c23_d70a, 0x7fc0_0000);
    paced(0x3f00_0000, 0x3c23_d70a, 0x48bb_8001);
}

// All wrong but the first k: the first wrong one is given.
fn loads_order() {
    let bad = point(0x3f80_0000, 0x7fc0_0000, 0x7f80_0000);
    let good = point(0x3f80_0000, 0x0000_0000, 0x0000_0000);
    let none = lent(0, 0, 0, 0, 0);
    let l = lent(3, 1, 1, 2, 6);
    load(9, 0, none, bad, 0x0000_0000, 0x0000_0000, 0x0000_0000);
    load(1, 0, none, bad, 0x0000_0000, 0x0000_0000, 0x0000_0000);
    load(1, 1, none, bad, 0x0000_0000, 0x0000_0000, 0x0000_0000);
    load(1, 1, l, bad, 0x0000_0000, 0x0000_0000, 0x0000_0000);
    load(1, 1, l, good, 0x0000_0000, 0x0000_0000, 0x0000_0000);
    load(1, 1, l, good, 0x3f00_0000, 0x0000_0000, 0x0000_0000);
    load(1, 1, l, good, 0x3f00_0000, 0x3c23_d70a, 0x0000_0000);
    load(1, 1, l, good, 0x3f00_0000, 0x3c23_d70a, 0x473b_8000);
}

// A find, a plain filter and a blended filter of the same query.
fn query(m: usize, l: Lengths, rate: u32, q: Point3) {
    let s = sized(m);
    let t = l.tree;
    let c = floats::value(rate);
    show::word(b"find");
    show::decimal(m);
    lengths(l);
    show::hex3(q.x, q.y, q.z);
    show::verdict(limits::judge_find(s, t, q));
    show::word(b"plain, rate");
    show::hex(c);
    show::verdict(limits::judge_filter_nointerp(s, t, l.responses, c, q));
    show::word(b"blended, rate");
    show::hex(c);
    show::verdict(limits::judge_filter(s, l, c, q));
}

fn queries() {
    let l = lent(3, 1, 1, 2, 6);
    let q = point(0x7f7f_ffff, 0x8000_0000, 0x0000_0001);
    query(1, l, 0x473b_8000, q);
    query(0, l, 0x473b_8000, q);
    query(1, lent(3, 1, 1, 2, 5), 0x473b_8000, q);
    query(1, lent(3, 1, 1, 1, 6), 0x473b_8000, q);
    query(1, lent(3, 1, 0, 2, 6), 0x473b_8000, q);
    query(1, l, 0x7fc0_0000, q);
    query(
        1,
        l,
        0x473b_8000,
        point(0x7fc0_0000, 0x7f80_0000, 0xff80_0000),
    );
    query(
        1,
        l,
        0x473b_8000,
        point(0x3f80_0000, 0x7f80_0000, 0x7fc0_0000),
    );
    query(
        1,
        l,
        0x473b_8000,
        point(0x3f80_0000, 0x3f80_0000, 0xff80_0000),
    );
}

// A filter, a response and the six neighbours by number, and max_delay.
fn by_number(m: usize, responses: usize, neighbours: usize, rate: u32, number: usize) {
    let s = sized(m);
    let c = floats::value(rate);
    show::word(b"number");
    show::decimal(number);
    show::word(b" of");
    show::decimal(m);
    show::word(b" lists");
    show::decimal(responses);
    show::decimal(neighbours);
    show::hex(c);
    show::verdict(limits::judge_number(s, responses, c, number));
    show::word(b"response");
    show::verdict(limits::judge_response(s, responses, number));
    show::word(b"neighbours");
    show::verdict(limits::judge_neighbours(s, neighbours, number));
    show::word(b"max_delay");
    show::verdict(limits::judge_rate(c));
}

fn numbers() {
    by_number(2, 4, 12, 0x473b_8000, 0);
    by_number(2, 4, 12, 0x473b_8000, 1);
    by_number(2, 4, 12, 0x473b_8000, 2);
    by_number(2, 4, 12, 0x473b_8000, 18446744073709551615);
    by_number(2, 4, 12, 0x7f80_0000, 2);
    by_number(2, 3, 11, 0x7f80_0000, 2);
    by_number(0, 3, 11, 0x7f80_0000, 2);
}

pub fn tries() {
    loads_kind();
    loads_lists();
    loads_values();
    loads_steps();
    loads_order();
    queries();
    numbers();
}
