// The query program but for its reading and writing: one turn reads up to the end of a line, or to the end of what is there, and says what to print.
//
// specs/Program.antt says what the program prints of a whole text, `output_of`, line by line as document 01's "The query program" has it; `Run::advance`
// equals one turn, `advance_of` (specs/Machine.antt), and `Run::finish` what is printed at the end. What is printed stands at the front of `out` and the
// rest of it stays (`Front`); a query's responses stand in its two lists (`advance_ears`), and the line in `buf` (`advance_buf`).
//
// proofs/Whole.antt: however the text is cut into chunks, all that the turns print and then the end come to `output_of` of the text (`whole`, `program`),
// and once over nothing more is printed (`nothing_more`). proofs/Turning.antt: there are turns for every text (`turns`). proofs/Order.antt: no
// query comes before the set's last line, and nothing but queries after it (`text_in_order`). proofs/Each.antt: a loaded set prints one block for each
// query, in their order (`each_block`). proofs/Keeps.antt: the limits of the text form hold after every line (`turn_sound`), so that the
// program's lists are never too short (proofs/Enough.antt, `never_short`). proofs/Texts.antt: five short texts and all that is printed of them.
#![tactic(auto)]

mod runs;

ghost use Rattle.std.specs.Prelude.{◌≡◌, ◌≤◌, length};
ghost use Rattle.lists.specs.Over.{over};
ghost use Rattle.loads.specs.Load.{work_of};
ghost use Rattle.settext.specs.Lines.{end_of};
ghost use Rattle.settext_laws.specs.Kept.{Reached, Few};
ghost use Rattle.queries.specs.Program.{ears_of, end_text};
ghost use Rattle.queries.specs.Sound.{SoundPhase};
ghost use Rattle.queries.specs.Machine.{AnswerSays, AskSays, LoadSays, StepSays, LineSays};

use answers::Ready;
use points::Point3;
pub use runs::{Phase, Run};
use settext::{State, Step};

// How long the lists are: as long as a set at the limits of the text form needs, its longest line that may be well formed, and its longest block.
pub const POINTS: usize = 256;

pub const POSITIONS: usize = 768;

pub const NEIGHBOURS: usize = 1536;

pub const SAMPLES: usize = 4096;

pub const LINE: usize = 40000;

pub const BLOCK: usize = 73848;

// What the lines of a set say.
#[derive(Drop)]
pub struct SetLists {
    pub positions: [f32; POSITIONS],
    pub responses: [f32; SAMPLES],
    pub delays: [f32; SAMPLES],
}

// What its load fills.
// Lists side by side, as the calls below take them (the C interface); memory is fixed, there is no heap.
#[derive(Drop)]
pub struct WorkLists {
    pub left: [u16; POINTS],
    pub right: [u16; POINTS],
    pub neighbours: [u16; NEIGHBOURS],
    pub cartesian: [f32; POSITIONS],
}

// The responses of a query.
#[derive(Drop)]
pub struct Ears {
    pub left: [f32; SAMPLES],
    pub right: [f32; SAMPLES],
}

// All that a line changes; what it prints stands at the front of `out`.
#[derive(Drop)]
pub struct Store {
    pub given: SetLists,
    pub work: WorkLists,
    pub ears: Ears,
    pub out: [u8; BLOCK],
}

// All that a turn changes: the line begun, and what whole lines change. How many bytes of `buf` and `out` count stands beside them (`Run`, `Told`), since
// nothing is allocated: memory is fixed.
#[derive(Drop)]
pub struct Memory {
    pub buf: [u8; LINE],
    pub store: Store,
}

// After one line: the phase, and how many bytes at the front of `out` are to be printed.
#[derive(Clone, Copy)]
pub struct Turned {
    pub phase: Phase,
    pub count: usize,
}

// After a turn: the run, where the chunk goes on, and how many bytes at the front of `out` are to be printed.
#[derive(Clone, Copy)]
pub struct Told {
    pub run: Run,
    pub next: usize,
    pub count: usize,
}

impl Store {
    // The load, after the last line of the set.
    // `Reached` is asked here and below, and is no ghost field: State is another crate's, and any may be made.
    fn complete(&mut self, s: State) -> Turned
        requires { Reached s }
        ensures { LoadSays s self.old self.new result }
    {
        let work = &mut self.work;
        let answer = answers::load(
            s,
            &self.given.positions,
            &self.given.responses,
            &mut work.left,
            &mut work.right,
            &mut work.neighbours,
            &mut work.cartesian,
        );
        match answer {
            Ok(look) => Turned {
                phase: Phase::Ready(s, look),
                count: 0,
            },
            Err(refusal) => Turned {
                phase: Phase::Over,
                count: blocks::refused_block(
                    refusal.number() as usize,
                    refusal.place(),
                    &mut self.out,
                ),
            },
        }
    }

    // The block of a query at the front of out: how many bytes it has. Before the load there is none.
    fn ask(&mut self, phase: Phase, s: State, q: Point3) -> usize
        requires { Reached s }
        ensures { AskSays phase s q self.old self.new result }
    {
        let Phase::Ready(_, look) = phase else {
            return 0;
        };
        let ready = Ready {
            state: s,
            look,
            cartesian: &self.work.cartesian,
            left: &self.work.left,
            right: &self.work.right,
            neighbours: &self.work.neighbours,
            responses: &self.given.responses,
            delays: &self.given.delays,
        };
        let ears = &mut self.ears;
        answer(&ready, q, &mut ears.left, &mut ears.right, &mut self.out)
    }

    // What follows from the line that was read.
    fn by_step(&mut self, phase: Phase, step: Step) -> Turned
        requires { Few step }
        ensures { StepSays phase step self.old self.new result }
    {
        match step {
            Step::Next(s) => Turned {
                phase: phase.moved_to(s),
                count: 0,
            },
            Step::Complete(s) => self.complete(s),
            Step::Query(s, q) => Turned {
                phase: phase.moved_to(s),
                count: self.ask(phase, s, q),
            },
            Step::Malformed(k) => Turned {
                phase: Phase::Over,
                count: blocks::form_error(k, &mut self.out),
            },
        }
    }

    // One line.
    fn take_line(&mut self, phase: Phase, line: &[u8]) -> Turned
        requires { SoundPhase phase }
        ensures { LineSays phase line.now self.old self.new result }
    {
        let given = &mut self.given;
        let step = settext::take_line(
            phase.state(),
            line,
            &mut given.positions,
            &mut given.responses,
            &mut given.delays,
        );
        self.by_step(phase, step)
    }
}

// The block of a query over a loaded set. Both lists of responses are parameters of their own, since the check loses what a call leaves in a part of
// an array that is a field.
fn answer(
    ready: &Ready<'_>,
    q: Point3,
    left: &mut [f32; SAMPLES],
    right: &mut [f32; SAMPLES],
    out: &mut [u8; BLOCK],
) -> usize
    requires { Reached ready.now.state }
    ensures { AnswerSays ready.now.state ready.now.look (work_of ready.now.left.now ready.now.right.now ready.now.neighbours.now ready.now.cartesian.now) ready.now.responses.now ready.now.delays.now q
        (ears_of left.old right.old) (ears_of left.new right.new) out.old out.new result }
{
    let n = ready.state.n as usize;
    ready.answer(q, &mut left[..n], &mut right[..n], out)
}

fn end(s: State, rest: &[u8], out: &mut [u8]) -> usize
    requires { 40 ≤ length out.old }
    ensures { (result ≡ length (end_text (end_of s rest.now))) × (out.new ≡ over (end_text (end_of s rest.now)) out.old) }
{
    match settext::at_end(s, rest) {
        Ok(()) => 0,
        Err(k) => blocks::form_error(k, out),
    }
}
