// What a line is made of: words, numbers, values by their bits, answers.
// By `io`, without a heap: a value is printed by its bits, which no Display does.
use refusals::Refusal;

pub fn word(s: &[u8]) {
    io::write_all(1, s);
}

pub fn hex(x: f32) {
    word(b" ");
    io::print_hex(1, floats::pattern(x) as u64, 8);
}

pub fn hex3(x: f32, y: f32, z: f32) {
    hex(x);
    hex(y);
    hex(z);
}

// The values of a list.
pub fn all(xs: &[f32]) {
    for &x in xs {
        hex(x);
    }
}

pub fn decimal(n: usize) {
    word(b" ");
    io::print_decimal(1, n as u64);
}

// A name, and whether it is allowed.
pub fn flag(name: &[u8], allowed: bool) {
    word(name);
    if allowed {
        word(b" yes");
    } else {
        word(b" no");
    }
}

pub fn end() {
    word(b"\n");
}

pub fn refusal(r: Refusal) {
    word(b" refused");
    decimal(r.number() as usize);
    decimal(r.place());
}

pub fn verdict(v: Result<(), Refusal>) {
    word(b":");
    match v {
        Ok(()) => word(b" fine"),
        Err(r) => refusal(r),
    }
    end();
}
