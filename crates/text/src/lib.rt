// Numbers and values in a line of the text form, read and printed.
//
// Reading: specs/Number.antt (eight hexadecimal digits, a decimal with its limit, a prefix) and specs/Values.antt (values in a line, and what
// a lent list holds afterwards). Printing: specs/Print.antt. Laws that callers cite stand in proofs/Reading.antt, among them `long_count`: a
// decimal with more digits than its limit is malformed, however long it is.
//
// Lines out of a text that comes in chunks. The line begun is kept in a lent buffer; of a line that is longer than the buffer only the first
// bytes are kept, and its end is still found.
//
// specs/Lines.antt says how a chunk is cut, specs/Machine.antt what a machine over lines makes of a text. proofs/Chunks.antt shows that it
// does not matter where the text is divided (`chunks`, `runs_on`), that the machine goes by lines (`by_lines`, `by_text`), and that the buffer
// does not show where `on_line` does not look past it (`cut_kept`, `runs_kept`).
//
// A line `key=..` and what stands behind its key: a word, a decimal, a value, values for a lent list, a point.
//
// The definitions stand in specs/Keys.antt, with words written as texts (specs/Words.antt).
#![tactic(auto)]

ghost use Rattle.std.specs.Prelude.{◌≡◌, ◌&&◌, ◌+◌, ◌*◌, ◌≤◌, ◌<◌, min, leb, length, set, drop};
ghost use Rattle.lists.specs.Over.{over};
ghost use Rattle.text.specs.Number.{digit_in, num_from, hex_of, count_of, at_most};
ghost use Rattle.text.specs.Print.{glyph_of, hex_text, decimal_text};
ghost use Rattle.text.specs.Values.{good_at, values_ok, value_at, stored};
ghost use Rattle.text.specs.Lines.{CutSays};
ghost use Rattle.text.specs.Keys.{exactly_of, num_behind, values_fit, point_read, point_behind};

use points::Point3;

// A digit of the base: `0` to `9`, then `a` to `f`.
fn digit(b: u8, base: u32) -> Option<u32>
    requires { base ≤ 16 }
    ensures { result ≡ digit_in base b }
{
    let d = match b {
        b'0'..=b'9' => b - b'0',
        b'a'..=b'f' => b - b'a' + 10,
        _ => return None,
    };
    let d = d as u32;
    (d < base).then_some(d)
}

// By hand: `from_str_radix` takes a &str, not bytes, and allows a sign, capitals and leading zeros.
// Eight lower-case hexadecimal digits, and nothing else.
pub fn hex(s: &[u8]) -> Option<u32>
    ensures { result ≡ hex_of s.now }
{
    if s.len() != 8 {
        return None;
    }
    let mut v = 0;
    for b in s {
        let d = digit(*b, 16)?;
        v = v * 16 + d;
    }
    Some(v)
}

// A decimal of any length: no sign, no leading zero, at most the limit.
pub fn count(s: &[u8], limit: u32) -> Option<u32>
    ensures { result ≡ count_of limit s.now }
{
    let n = s.len();
    if n == 0 {
        return None;
    }
    if (s[0] == b'0') & (n != 1) {
        return None;
    }
    digits(s, limit)
}

// Apart from `hex`, whose eight digits cannot wrap: with a limit for both, neither would be plainer.
// The value stays at or below the limit, so that it cannot wrap: what is once above it only grows.
fn digits(s: &[u8], limit: u32) -> Option<u32>
    ensures { result ≡ at_most limit (num_from 10 0 s.now) }
{
    let most = limit as u64;
    let mut v = 0u64;
    for b in s {
        let d = digit(*b, 10)?;
        v = v * 10 + d as u64;
        if most < v {
            return None;
        }
    }
    Some(v as u32)
}

fn glyph(d: u32) -> u8
    requires { d < 16 }
    ensures { result ≡ glyph_of d }
{
    if d < 10 {
        b'0' + d as u8
    } else {
        b'a' - 10 + d as u8
    }
}

// Printed by hand into a lent list: `format!` makes a String, and there is no heap.
// x as eight lower-case hexadecimal digits, at the front of out.
pub fn put_hex(x: u32, out: &mut [u8])
    requires { 8 ≤ length out.old }
    ensures { out.new ≡ over (hex_text x) out.old }
{
    let mut p = 0x1000_0000u32;
    for i in 0..8 {
        out[i] = glyph(x / p % 16);
        p /= 16;
    }
}

// x as a decimal, at the front of out: how many digits.
pub fn put_decimal(x: usize, out: &mut [u8]) -> usize
    requires { length (decimal_text x) ≤ length out.old }
    ensures { (result ≡ length (decimal_text x)) × (out.new ≡ over (decimal_text x) out.old) }
{
    if x < 10 {
        out[0] = b'0' + x as u8;
        return 1;
    }
    let n = put_decimal(x / 10, out);
    out[n] = b'0' + (x % 10) as u8;
    n + 1
}

// Whether value k of n is well formed, with the comma after it.
fn good_at(s: &[u8], n: usize, k: usize) -> bool
    requires { (k < n)
        × (length s.now + 1 ≡ 9 * n) }
    ensures { result ≡ good_at s.now n k }
{
    let a = 9 * k;
    let e = a + 8;
    hex(&s[a..e]).is_some() && (k + 1 == n || s[e] == b',')
}

// Whether the line is exactly n values. The length is divided, since 9 * n could wrap.
pub fn values_ok(s: &[u8], n: usize) -> bool
    ensures { result ≡ values_ok s.now n }
{
    if n == 0 {
        return s.is_empty();
    }
    let long = s.len() + 1;
    if long % 9 != 0 || long / 9 != n {
        return false;
    }
    for k in 0..n {
        if !good_at(s, n, k) {
            return false;
        }
    }
    true
}

// No Option: both callers have judged the whole line before, so that its values are all there.
// Value k of a line that is long enough; +0 where it is malformed.
pub fn value_at(s: &[u8], k: usize) -> f32
    requires { 9 * k + 8 ≤ length s.now }
    ensures { result ≡ value_at s.now k }
{
    let a = 9 * k;
    let e = a + 8;
    hex(&s[a..e]).map_or(0.0, floats::value)
}

// A test that writes: what is answered has no value beside it. n, out and at pass through here and are kept nowhere.
// The n values of a line, to out from place `at` on. A line that is malformed, or that finds no room, writes nothing.
pub fn values(s: &[u8], n: usize, out: &mut [f32], at: usize) -> bool
    ensures { (result ≡ (values_ok s.now n && leb (at + n) (length out.old))) × (out.new ≡ stored result s.now n at out.old) }
{
    if out.len() < n || out.len() - n < at || !values_ok(s, n) {
        return false;
    }
    for k in 0..n {
        out[at + k] = value_at(s, k);
    }
    true
}

// ---- lines

// No Option and no Result: both cases say how much the buffer holds.
#[derive(Clone, Copy)]
pub enum Cut {
    // A whole line: the chunk goes on at the first number, and so many bytes of the line are in the buffer.
    Line(usize, usize),
    // The chunk is used up; so many bytes of a line are in the buffer.
    More(usize),
}

// How much of the buffer is used stands beside it, since it is lent: there is no heap.
// One byte more of the line begun, if there is room: how many are kept.
fn keep(buf: &mut [u8], used: usize, b: u8) -> usize
    requires { used ≤ length buf.old }
    ensures { (result ≡ min (used + 1) (length buf.old)) × (buf.new ≡ set buf.old used b) }
{
    if used < buf.len() {
        buf[used] = b;
        return used + 1;
    }
    used
}

// The next line of the chunk from a place on, where `used` bytes of it are in the buffer already.
// By index, since where the line ends is answered too.
pub fn next_line(chunk: &[u8], from: usize, buf: &mut [u8], used: usize) -> Cut
    requires { (from ≤ length chunk.now)
        × (used ≤ length buf.old) }
    ensures { CutSays chunk.now buf.old from used result buf.new }
{
    let mut u = used;
    for i in from..chunk.len() {
        let b = chunk[i];
        if b == b'\n' {
            return Cut::Line(i + 1, u);
        }
        u = keep(buf, u, b);
    }
    Cut::More(u)
}

// ---- keys

#[tactic(auto, using(crate::proofs::Keys::same_word))]
pub fn exactly(word: &[u8], line: &[u8]) -> bool
    ensures { result ≡ exactly_of word.now line.now }
{
    line == word
}

// A key and its line stand one by one, and each reader is a line: one function over a closure would be no plainer.
pub fn count_behind(key: &[u8], line: &[u8], limit: u32) -> Option<u32>
    ensures { result ≡ num_behind key.now (count_of limit) line.now }
{
    count(line.strip_prefix(key)?, limit)
}

pub fn hex_behind(key: &[u8], line: &[u8]) -> Option<u32>
    ensures { result ≡ num_behind key.now hex_of line.now }
{
    hex(line.strip_prefix(key)?)
}

// The n values behind the key, to out from place `at` on. A line that is malformed, or that finds no room, writes nothing.
pub fn values_behind(key: &[u8], line: &[u8], n: usize, out: &mut [f32], at: usize) -> bool
    ensures { (result ≡ values_fit key.now n at line.now out.old) × (out.new ≡ stored result (drop (length key.now) line.now) n at out.old) }
{
    match line.strip_prefix(key) {
        Some(rest) => values(rest, n, out, at),
        None => false,
    }
}

pub fn point_behind(key: &[u8], line: &[u8]) -> Option<Point3>
    ensures { result ≡ point_behind key.now line.now }
{
    point(line.strip_prefix(key)?)
}

fn point(s: &[u8]) -> Option<Point3>
    ensures { result ≡ point_read s.now }
{
    if !values_ok(s, 3) {
        return None;
    }
    Some(Point3 {
        x: value_at(s, 0),
        y: value_at(s, 1),
        z: value_at(s, 2),
    })
}
