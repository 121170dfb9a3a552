// How far the program is between two turns, what a turn makes of it, and what is printed at the end.
ghost use Rattle.queries.specs.Sound.{Sound};

use crate::{BLOCK, LINE, Memory, Told, end};
use lookup::Lookup;
use settext::State;
use text::Cut;

// How far the program is.
// Three named outcomes, and so neither an `Option` nor a `Result`.
#[derive(Clone, Copy)]
pub enum Phase {
    // The lines of the set are read.
    Reading(State),
    // The set is loaded, and queries are answered.
    Ready(State, Lookup),
    // A form error or a refused load was printed.
    Over,
}

impl Phase {
    ghost use Rattle.std.specs.Prelude.{◌≡◌};
    ghost use Rattle.queries.specs.Program.{state_in, is_over, phase_after};

    // What is known of the text.
    pub(crate) fn state(self) -> State
        ensures { result ≡ state_in self }
    {
        match self {
            Phase::Reading(s) | Phase::Ready(s, _) => s,
            Phase::Over => settext::begin(),
        }
    }

    // Whether all is printed.
    pub fn is_over(self) -> bool
        ensures { result ≡ is_over self }
    {
        matches!(self, Phase::Over)
    }

    // The phase stays, with a line more read.
    pub(crate) fn moved_to(self, s: State) -> Phase
        ensures { result ≡ phase_after self s }
    {
        match self {
            Phase::Reading(_) => Phase::Reading(s),
            Phase::Ready(_, look) => Phase::Ready(s, look),
            Phase::Over => Phase::Over,
        }
    }
}

// Between two turns: the phase, and how many bytes of the line begun are in the line buffer.
#[derive(Clone, Copy)]
pub struct Run {
    pub phase: Phase,
    pub used: usize,
    pub ghost sound: { Sound phase used },
}

// Before the first line.
// Not derived: the first phase has a state, and a derive cannot prove the ghost field.
impl Default for Run {
    ghost use Rattle.std.specs.Prelude.{◌≡◌};
    ghost use Rattle.queries.specs.Machine.{start_run};

    ghost is_default = { λ t. t ≡ start_run };

    fn default() -> Run {
        Run {
            phase: Phase::Reading(settext::begin()),
            used: 0,
        }
    }
}

impl Run {
    ghost use Rattle.std.specs.Prelude.{◌≡◌, ◌≤◌, length};
    ghost use Rattle.lists.specs.Over.{over};
    ghost use Rattle.settext.specs.Lines.{end_of};
    ghost use Rattle.queries.specs.Program.{end_text};
    ghost use Rattle.queries.specs.Machine.{AdvanceSays, FinishSays};

    // A turn: it reads the chunk from `at` up to the end of a line, or to the chunk's end. The bytes that it says at the front of `out` are to be
    // printed, and the chunk goes on at `next`.
    pub fn advance(self, chunk: &[u8], at: usize, memory: &mut Memory) -> Told
        requires { at ≤ length chunk.now }
        ensures { AdvanceSays chunk.now at memory.old memory.new self result }
    {
        let phase = self.phase;
        if phase.is_over() {
            return Told {
                run: self,
                next: chunk.len(),
                count: 0,
            };
        }
        match text::next_line(chunk, at, &mut memory.buf, self.used) {
            Cut::Line(next, n) => {
                let turned = memory.store.take_line(phase, &memory.buf[..n]);
                Told {
                    run: Run {
                        phase: turned.phase,
                        used: 0,
                    },
                    next,
                    count: turned.count,
                }
            }
            Cut::More(n) => Told {
                run: Run { phase, used: n },
                next: chunk.len(),
                count: 0,
            },
        }
    }

    // At the end of the input: how many bytes at the front of `out` are still to be printed.
    pub fn finish(self, buf: &[u8; LINE], out: &mut [u8; BLOCK]) -> usize
        ensures { FinishSays buf.now self out.old out.new result }
    {
        let used = self.used;
        match self.phase {
            Phase::Reading(s) | Phase::Ready(s, _) => end(s, &buf[..used], out),
            Phase::Over => 0,
        }
    }
}
