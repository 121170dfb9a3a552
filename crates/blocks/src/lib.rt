// What the query program prints, as bytes in a lent list: the block of a query, and the form error.
//
// `block` writes `block_of` and `form_error` writes `form_error` (specs/Blocks.antt) to the front of the list, and the rest of the list stays.
// `block_room`, `refused_room` and `error_room` (proofs/Rooms.antt) say how many bytes are enough: 9 for each value and 120 more, 70 and 40.
#![tactic(auto)]

ghost use Rattle.std.specs.Prelude.{◌≡◌, ◌≤◌, [], ◌∷◌, length};
ghost use Rattle.lists.specs.Over.{over};
ghost use Rattle.text.specs.Print.{decimal_text};
ghost use Rattle.blocks.specs.Put.{FitsAt, Wrote, Fits, Writes};
ghost use Rattle.blocks.specs.Blocks.{word_line, count_line, value_text, value_line, list_text, values_line, head_text, delays_text, filter_text, found_text, refused_text, block_of, form_error};

use delays::{Outcome, Seconds};
use lookup::Located;

// A lent list, and the place behind what was written into it so far.
// No heap: the list is the caller's, so how far it is written stands beside it.
#[derive(Drop)]
struct Writer<'a> {
    out: &'a mut [u8],
    at: usize,
}

impl Writer<'_> {
    fn put(&mut self, word: &[u8])
        requires { Fits word.now self.old }
        ensures { Writes word.now self.old self.new }
    {
        lists::copy(word, &mut self.out[self.at..], word.len());
        self.at += word.len();
    }

    fn byte(&mut self, b: u8)
        requires { Fits (b ∷ []) self.old }
        ensures { Writes (b ∷ []) self.old self.new }
    {
        self.out[self.at] = b;
        self.at += 1;
    }

    fn count(&mut self, k: usize)
        requires { Fits (decimal_text k) self.old }
        ensures { Writes (decimal_text k) self.old self.new }
    {
        self.at += text::put_decimal(k, &mut self.out[self.at..]);
    }

    fn value(&mut self, x: f32)
        requires { Fits (value_text x) self.old }
        ensures { Writes (value_text x) self.old self.new }
    {
        text::put_hex(floats::pattern(x), &mut self.out[self.at..]);
        self.at += 8;
    }

    // A value that comes after another.
    fn next_value(&mut self, x: f32)
        requires { Fits (44 ∷ value_text x) self.old }
        ensures { Writes (44 ∷ value_text x) self.old self.new }
    {
        self.byte(b',');
        self.value(x);
    }

    fn values(&mut self, xs: &[f32])
        requires { Fits (list_text xs.now) self.old }
        ensures { Writes (list_text xs.now) self.old self.new }
    {
        let Some((first, rest)) = xs.split_first() else {
            return;
        };
        self.value(*first);
        for x in rest {
            self.next_value(*x);
        }
    }

    fn word_line(&mut self, word: &[u8])
        requires { Fits (word_line word.now) self.old }
        ensures { Writes (word_line word.now) self.old self.new }
    {
        self.put(word);
        self.byte(b'\n');
    }

    fn count_line(&mut self, key: &[u8], k: usize)
        requires { Fits (count_line key.now k) self.old }
        ensures { Writes (count_line key.now k) self.old self.new }
    {
        self.put(key);
        self.count(k);
        self.byte(b'\n');
    }

    fn value_line(&mut self, key: &[u8], x: f32)
        requires { Fits (value_line key.now x) self.old }
        ensures { Writes (value_line key.now x) self.old self.new }
    {
        self.put(key);
        self.value(x);
        self.byte(b'\n');
    }

    fn values_line(&mut self, key: &[u8], xs: &[f32])
        requires { Fits (values_line key.now xs.now) self.old }
        ensures { Writes (values_line key.now xs.now) self.old self.new }
    {
        self.put(key);
        self.values(xs);
        self.byte(b'\n');
    }

    // ---- blocks

    fn head_lines(&mut self, answer: &[u8], nearest: usize, points: usize)
        requires { Fits (head_text answer.now nearest points) self.old }
        ensures { Writes (head_text answer.now nearest points) self.old self.new }
    {
        self.word_line(answer);
        self.count_line(b"nearest=", nearest);
        self.count_line(b"points=", points);
    }

    fn both_delays(&mut self, left: Seconds, right: Seconds)
        requires { Fits (delays_text left right) self.old }
        ensures { Writes (delays_text left right) self.old self.new }
    {
        self.value_line(b"ldelay=", left.0);
        self.value_line(b"rdelay=", right.0);
    }

    // The parts of a filter stand one by one, as `filter_text` has them: they pass through here and are kept nowhere.
    fn filter_block(
        &mut self,
        answer: &[u8],
        nearest: usize,
        points: usize,
        ldelay: Seconds,
        rdelay: Seconds,
        left: &[f32],
        right: &[f32],
    )
        requires { Fits (filter_text answer.now nearest points ldelay rdelay left.now right.now) self.old }
        ensures { Writes (filter_text answer.now nearest points ldelay rdelay left.now right.now) self.old self.new }
    {
        self.head_lines(answer, nearest, points);
        self.values_line(b"left=", left);
        self.values_line(b"right=", right);
        self.both_delays(ldelay, rdelay);
    }

    fn refused(&mut self, reason: usize, place: usize)
        requires { Fits (refused_text reason place) self.old }
        ensures { Writes (refused_text reason place) self.old self.new }
    {
        self.word_line(b"answer=refused");
        self.count_line(b"reason=", reason);
        self.count_line(b"place=", place);
    }

    // The block of a filter, by what the find answered.
    fn found_block(
        &mut self,
        answer: &[u8],
        found: Located,
        points: usize,
        ldelay: Seconds,
        rdelay: Seconds,
        left: &[f32],
        right: &[f32],
    )
        requires { Fits (found_text answer.now found points ldelay rdelay left.now right.now) self.old }
        ensures { Writes (found_text answer.now found points ldelay rdelay left.now right.now) self.old self.new }
    {
        match found {
            Located::At(number) => {
                self.filter_block(answer, number as usize, points, ldelay, rdelay, left, right)
            }
            Located::Refused(refusal) => self.refused(refusal.number() as usize, refusal.place()),
        }
    }

    fn block(&mut self, outcome: Outcome, found: Located, left: &[f32], right: &[f32])
        requires { Fits (block_of outcome found left.now right.now) self.old }
        ensures { Writes (block_of outcome found left.now right.now) self.old self.new }
    {
        match outcome {
            Outcome::Exact(l, r) => self.found_block(b"answer=exact", found, 1, l, r, left, right),
            Outcome::Blended(l, r, points) => {
                self.found_block(b"answer=blended", found, points, l, r, left, right)
            }
            Outcome::Refused(reason, place) => self.refused(reason as usize, place),
        }
    }
}

// The refused block at the front of out: how many bytes it has.
// Numbers, and no `Refusal`: the outcome of a filter has them so, and a narrower type would ask more of callers.
pub fn refused_block(reason: usize, place: usize, out: &mut [u8]) -> usize
    requires { FitsAt 0 (refused_text reason place) out.old }
    ensures { Wrote 0 (refused_text reason place) out.old result out.new }
{
    let mut w = Writer { out, at: 0 };
    w.refused(reason, place);
    w.at
}

// The block of a query at the front of out: how many bytes it has.
pub fn block(outcome: Outcome, found: Located, left: &[f32], right: &[f32], out: &mut [u8]) -> usize
    requires { length (block_of outcome found left.now right.now) ≤ length out.old }
    ensures { (result ≡ length (block_of outcome found left.now right.now)) × (out.new ≡ over (block_of outcome found left.now right.now) out.old) }
{
    let mut w = Writer { out, at: 0 };
    w.block(outcome, found, left, right);
    w.at
}

// The form error of line k at the front of out: how many bytes it has.
pub fn form_error(k: usize, out: &mut [u8]) -> usize
    requires { length (form_error k) ≤ length out.old }
    ensures { (result ≡ length (form_error k)) × (out.new ≡ over (form_error k) out.old) }
{
    let mut w = Writer { out, at: 0 };
    w.count_line(b"form error at line ", k);
    w.at
}
