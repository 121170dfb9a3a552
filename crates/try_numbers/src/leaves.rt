// The leaves on odd values: zeros, subnormals, ends of ranges, infinities, NaN; each alone, and each with each.
use crate::show;
use refusals::Refusal;

fn answer(name: &[u8], a: Result<f32, Refusal>) {
    show::word(name);
    match a {
        Ok(v) => show::hex(v),
        Err(r) => show::refusal(r),
    }
}

fn alone(bits: u32) {
    let x = floats::value(bits);
    show::word(b"alone");
    show::hex(x);
    show::flag(b" finite", floats::is_finite(x));
    show::word(b" abs");
    show::hex(floats::abs(x));
    show::word(b" ceil");
    show::decimal(floats::ceil(x) as usize);
    show::word(b" root");
    show::hex(root::root(x));
    answer(b" sine", angles::sine(x));
    answer(b" cosine", angles::cosine(x));
    show::end();
}

fn pair(a: u32, b: u32) {
    let y = floats::value(a);
    let x = floats::value(b);
    show::word(b"pair");
    show::hex(y);
    show::hex(x);
    show::word(b" min");
    show::hex(floats::min(y, x));
    show::word(b" max");
    show::hex(floats::max(y, x));
    show::word(b" clamp");
    show::hex(floats::clamp(y, -1.0, x));
    answer(b" arctangent", angles::arctangent(y, x));
    show::end();
}

pub fn tries() {
    let odd = [
        0x0000_0000,
        0x8000_0000,
        0x0000_0001,
        0x8000_0001,
        0x007f_ffff,
        0x3980_0000,
        0x3f80_0000,
        0xbf80_0000,
        0x41b4_0000,
        0x4180_0000,
        0xc180_0001,
        0x4b80_0000,
        0x7f7f_ffff,
        0x7f80_0000,
        0xff80_0000,
        0x7fc0_0000,
    ];
    for bits in odd {
        alone(bits);
    }
    for a in odd {
        for b in odd {
            pair(a, b);
        }
    }
}
