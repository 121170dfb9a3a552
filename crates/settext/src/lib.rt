// Form 1 of a set's text, line by line: the keys in their order, the lines of the set, then queries.
//
// `take_line` equals `line_of` (specs/Lines.antt), which says what each line makes of the state and of the three lists; `at_end` equals
// `end_of`. Which line is wanted follows from how many were read, since each of them was well formed; the next one's number is K of a form error.
#![tactic(auto)]

ghost use Rattle.std.specs.Prelude.{◌≡◌, MatchOption, option_map};
ghost use Rattle.text.specs.Number.{count_of, hex_of};
ghost use Rattle.text.specs.Values.{value_of};
ghost use Rattle.text.specs.Keys.{num_behind};
ghost use Rattle.settext.specs.declared.State.{State};
ghost use Rattle.settext.specs.State.{start_state, line_number, line_count, went_of, bad_of};
ghost use Rattle.settext.specs.Lines.{kind_of, product, form_line, key_line, values_step, values_list, query_line, text_lists, after_as, line_of, end_of};

use points::Point3;

// Between two lines: how many were read, all well formed, and what the keys said. The counts are small enough that no product of them wraps.
// Functions of a state and a line, and no methods: each stands as the definition of its name takes them.
#[derive(Clone, Copy)]
pub struct State {
    pub lines: usize,
    pub kind: u32,
    pub m: u16,
    pub r: u16,
    pub n: u16,
    pub delays: u16,
    pub rate: f32,
    pub astep: f32,
    pub rstep: f32,
}

// What a line was: one of the set, the set's last, a query, or malformed with its number.
// Four named outcomes, and so neither an `Option` nor a `Result`.
#[derive(Clone, Copy)]
pub enum Step {
    Next(State),
    Complete(State),
    Query(State, Point3),
    Malformed(usize),
}

// No derived Default: before its line is read the kind is 255, which is none.
pub fn begin() -> State
    ensures { result ≡ start_state }
{
    State {
        lines: 0,
        kind: 255,
        m: 0,
        r: 0,
        n: 0,
        delays: 0,
        rate: 0.0,
        astep: 0.0,
        rstep: 0.0,
    }
}

#[tactic(auto, unfolding(crate::specs::State::line_number))]
fn number(s: State) -> usize
    ensures { result ≡ line_number s }
{
    s.lines.saturating_add(1)
}

fn line_count(s: State) -> usize
    ensures { result ≡ line_count s }
{
    let m = s.m as usize;
    9 + m + m * (s.r as usize) + s.delays as usize
}

fn went(s: State) -> Step
    ensures { result ≡ went_of s }
{
    let lines = number(s);
    let t = State { lines, ..s };
    if lines == line_count(s) {
        Step::Complete(t)
    } else {
        Step::Next(t)
    }
}

fn malformed(s: State) -> Step
    ensures { result ≡ bad_of s }
{
    Step::Malformed(number(s))
}

// A kind stays a number, with all unknown values: load says no to each but two, and any other word is 255.
fn kind_of(word: &[u8]) -> u32
    ensures { result ≡ kind_of word.now }
{
    if text::exactly(b"cartesian", word) {
        return 0;
    }
    if text::exactly(b"spherical", word) {
        return 1;
    }
    255
}

fn form_line(s: State, line: &[u8]) -> Step
    ensures { result ≡ form_line s line.now }
{
    if text::exactly(b"form=1", line) {
        return went(s);
    }
    malformed(s)
}

// A count behind a key, in the 16 bits that the state keeps.
fn count(key: &[u8], line: &[u8], limit: u16) -> Option<u16>
    ensures { result ≡ num_behind key.now (count_of limit) line.now }
{
    let n = text::count_behind(key, line, limit as u32)?;
    Some(n as u16)
}

fn value(key: &[u8], line: &[u8]) -> Option<f32>
    ensures { result ≡ option_map value_of (num_behind key.now hex_of line.now) }
{
    text::hex_behind(key, line).map(floats::value)
}

// The line of a key: `put` says where in the state its value goes.
fn gives<T, F: FnOnce(State, T) -> State>(s: State, value: Option<T>, put: F) -> Step
    requires { F.IsAlwaysCallable put }
    ensures { MatchOption value (result ≡ bad_of s) (λ v. (next : State) × F.post put s v next × (result ≡ went_of next)) }
{
    match value {
        Some(v) => went(put(s, v)),
        None => malformed(s),
    }
}

// n with m and r already read: the first line that shows m * r * n.
fn product_ok(s: State, v: Option<u16>) -> Option<u16>
    ensures { result ≡ product s v }
{
    let n = v?;
    if (s.m as usize) * (s.r as usize) * (n as usize) > 4096 {
        return None;
    }
    Some(n)
}

// A match and no table of functions: the gate takes no function pointer that is handed out.
fn key_line(s: State, line: &[u8]) -> Step
    ensures { result ≡ key_line s line.now }
{
    match s.lines {
        0 => form_line(s, line),
        1 => gives(
            s,
            line.strip_prefix(b"kind="),
            |s, word| State {
                kind: kind_of(word),
                ..s
            },
        ),
        2 => gives(s, count(b"m=", line, 256), |s, m| State { m, ..s }),
        3 => gives(s, count(b"r=", line, 4096), |s, r| State { r, ..s }),
        4 => gives(
            s,
            product_ok(s, count(b"n=", line, 4096)),
            |s, n| State { n, ..s },
        ),
        5 => gives(s, value(b"rate=", line), |s, rate| State { rate, ..s }),
        6 => gives(s, value(b"astep=", line), |s, astep| State { astep, ..s }),
        7 => gives(s, value(b"rstep=", line), |s, rstep| State { rstep, ..s }),
        8 => gives(
            s,
            count(b"delays=", line, 4096),
            |s, delays| State { delays, ..s },
        ),
        _ => malformed(s),
    }
}

// A line of n values for place `at` of a list.
fn values_line(s: State, key: &[u8], line: &[u8], n: usize, out: &mut [f32], at: usize) -> Step
    ensures { (result ≡ values_step s key.now line.now n at out.old) × (out.new ≡ values_list key.now line.now n at out.old) }
{
    if text::values_behind(key, line, n, out, at) {
        return went(s);
    }
    malformed(s)
}

fn query_line(s: State, line: &[u8]) -> Step
    ensures { result ≡ query_line s line.now }
{
    match text::point_behind(b"query=", line) {
        Some(p) => Step::Query(
            State {
                lines: number(s),
                ..s
            },
            p,
        ),
        None => malformed(s),
    }
}

// Three lists of three things, and not parallel ones: a line of the set fills a place of one of them.
pub fn take_line(
    s: State,
    line: &[u8],
    positions: &mut [f32],
    responses: &mut [f32],
    delays: &mut [f32],
) -> Step
    ensures { after_as result (text_lists positions.new responses.new delays.new)
        ≡ line_of s line.now (text_lists positions.old responses.old delays.old) }
{
    let k = s.lines;
    if k < 9 {
        return key_line(s, line);
    }
    let i = k - 9;
    let m = s.m as usize;
    if i < m {
        return values_line(s, b"pos=", line, 3, positions, 3 * i);
    }
    let j = i - m;
    let mr = m * (s.r as usize);
    if j < mr {
        let n = s.n as usize;
        return values_line(s, b"ir=", line, n, responses, j * n);
    }
    let d = j - mr;
    if d < s.delays as usize {
        return values_line(s, b"delay=", line, 1, delays, d);
    }
    query_line(s, line)
}

// At the end of the text: all is there, or the line of this number is malformed or missing.
pub fn at_end(s: State, rest: &[u8]) -> Result<(), usize>
    ensures { result ≡ end_of s rest.now }
{
    if (s.lines < line_count(s)) | (rest.len() != 0) {
        return Err(number(s));
    }
    Ok(())
}
