// The values, steps, rates and sizes at the ends of their ranges and just past them.
use crate::show;
use limits::{Sizes, TreeLengths};
use points::Point3;

fn position(bits: u32) {
    let x = floats::value(bits);
    show::word(b"position");
    show::hex(x);
    show::flag(b" cartesian", limits::position_ok(0, 0, x));
    show::flag(b" angle", limits::position_ok(1, 1, x));
    show::flag(b" radius", limits::position_ok(1, 2, x));
    show::flag(b" unknown", limits::position_ok(2, 0, x));
    show::end();
}

fn positions() {
    let tried = [
        0x0000_0000,
        0x8000_0000,
        0x0000_0001,
        0x8000_0001,
        0x4434_0000,
        0x4434_0001,
        0xc434_0000,
        0xc434_0001,
        0x461c_4000,
        0x461c_4001,
        0xc61c_4000,
        0xc61c_4001,
        0x7f7f_ffff,
        0x7f80_0000,
        0xff80_0000,
        0x7fc0_0000,
    ];
    for bits in tried {
        position(bits);
    }
}

fn number(bits: u32) {
    let x = floats::value(bits);
    show::word(b"number");
    show::hex(x);
    show::flag(b" angle step", limits::angle_step_ok(x));
    show::flag(b" radius step", limits::radius_step_ok(x));
    show::flag(b" rate", limits::rate_ok(x));
    show::end();
}

fn numbers() {
    let tried = [
        0x3dcc_cccd,
        0x3dcc_cccc,
        0x4234_0000,
        0x4234_0001,
        0x3a83_126f,
        0x3a83_126e,
        0x3f80_0000,
        0x3f80_0001,
        0x447a_0000,
        0x4479_ffff,
        0x48bb_8000,
        0x48bb_8001,
        0x8000_0000,
        0x0000_0001,
        0x7f80_0000,
        0x7fc0_0000,
    ];
    for bits in tried {
        number(bits);
    }
}

// Lists of the greatest length there is: only the sizes can be refused.
fn sizes(m: usize, c: usize, r: usize, n: usize) {
    show::word(b"sizes");
    show::decimal(m);
    show::decimal(c);
    show::decimal(r);
    show::decimal(n);
    let long = 18446744073709551615;
    let t = TreeLengths {
        cartesian: long,
        left: long,
        right: long,
    };
    let q = Point3::from([0.0; 3]);
    show::verdict(limits::judge_find(Sizes { m, c, r, n }, t, q));
}

fn all_sizes() {
    sizes(1, 3, 2, 0);
    sizes(16384, 3, 8, 8192);
    sizes(0, 3, 2, 0);
    sizes(16385, 3, 2, 0);
    sizes(1, 2, 2, 0);
    sizes(1, 4, 2, 0);
    sizes(1, 3, 1, 0);
    sizes(1, 3, 9, 0);
    sizes(1, 3, 2, 8193);
    sizes(18446744073709551615, 3, 2, 1);
    sizes(1, 3, 18446744073709551615, 18446744073709551615);
}

pub fn tries() {
    positions();
    numbers();
    all_sizes();
}
