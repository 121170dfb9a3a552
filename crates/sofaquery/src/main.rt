// `sofaquery`: reads one set in the text form from standard input, and writes one block for each query to standard output.
//
// Only reading and writing stand here; what a text comes to is crate `queries`, whose turns read up to the end of a line and say what to write.
// No contract can speak of what was read or written. What the system answered is a value: each function that decides by it is an equation over it
// (`after_read`, `after_write`, `end_flow`), and `run` is exactly those steps, one for each call that it made, until one of them ends it
// (`Ran`, `Came`, specs/Calls.antt). proofs/Turns.antt: the answers decide where it comes to, lists and all (`same_end`), and where it ends with the
// text, all that it was to write is `output_of` of all that it read (`whole_output`). That the answers are the system's own no contract can say
// (docs/EXCEPTIONS.md). Memory is the lists of `main` and one chunk, whatever the number of queries.
//
// Where the system fails to read or to write, nothing more is written, since the text then has no end to speak of, and one line on standard error says so.
#![tactic(auto)]

ghost use Rattle.std.specs.Prelude.{◌≤◌, ◌≡◌, length, take, IsOk, OnOk};
ghost use Rattle.std.specs.Io.KnownBytes.{Appends};
ghost use Rattle.queries.specs.Machine.{start_run, Front};
ghost use Rattle.sofaquery.specs.Calls.{here, start_held, goes_on, read_flow, after_read, write_flow, after_write, last_text, end_flow, not_taken, Came, Ends};

use queries::{
    BLOCK, Ears, LINE, Memory, NEIGHBOURS, POINTS, POSITIONS, Run, SAMPLES, SetLists, Store,
    WorkLists,
};
use std::io;
use std::io::{ErrorKind, Read, Stderr, Stdin, Stdout, Write};

const CHUNK: usize = 65536;

// What came of the last call of the system: a named outcome of four.
#[derive(Clone, Copy, Default)]
pub enum Flow {
    // There may be more to read.
    #[default]
    More,
    // The text has ended, or all is printed.
    Ended,
    // Standard input could not be read.
    Unread,
    // Standard output could not be written.
    Unwritten,
}

// Between two calls: how far the machine is, which part of the chunk it has not read (places in it: memory is fixed), and what came of the last call.
#[derive(Clone, Copy, Default)]
pub struct Went {
    pub run: Run,
    pub at: usize,
    pub have: usize,
    pub flow: Flow,
}

fn goes_on(flow: Flow) -> bool
    ensures { result ≡ goes_on flow }
{
    matches!(flow, Flow::More)
}

// By what a read answered: it failed, the text has ended, or bytes are there.
fn read_flow(got: io::Result<usize>) -> Flow
    ensures { result ≡ read_flow got }
{
    match got {
        Ok(0) => Flow::Ended,
        Ok(_) => Flow::More,
        Err(_) => Flow::Unread,
    }
}

#[tactic(auto, unfolding(crate::specs::Calls::after_read))]
fn after_read(run: Run, got: io::Result<usize>) -> Went
    ensures { result ≡ after_read run got }
{
    Went {
        run,
        at: 0,
        have: got.unwrap_or(0),
        flow: read_flow(got),
    }
}

// By whether a write went well, and whether there is nothing left to do then.
fn write_flow(wrote: io::Result<()>, done: bool) -> Flow
    ensures { result ≡ write_flow wrote done }
{
    match wrote {
        Err(_) => Flow::Unwritten,
        Ok(()) if done => Flow::Ended,
        Ok(()) => Flow::More,
    }
}

// After a turn that came to a place of the chunk, and the write of what it said.
#[tactic(auto, unfolding(crate::specs::Calls::after_write))]
fn after_write(run: Run, at: usize, have: usize, wrote: io::Result<()>) -> Went
    ensures { result ≡ after_write run at have wrote }
{
    Went {
        run,
        at,
        have,
        flow: write_flow(wrote, (have <= at) & run.phase.is_over()),
    }
}

// Writes so many bytes at the front of out. Nothing to write goes well. Not `write_all`, which begins anew what a signal interrupted:
// here such a write has failed, as such a read has.
fn write<W: Write>(output: &mut W, out: &[u8], count: usize) -> io::Result<()>
    requires { count ≤ length out.now }
    ensures nothing { count ≡ 0 → IsOk result }
    ensures bytes { OnOk result (Appends (W.contents output.old) (W.contents output.new) (take count out.now)) }
{
    let mut rest = &out[..count];
    while !rest.is_empty() {
        let wrote = output.write(rest)?;
        if wrote == 0 {
            return Err(ErrorKind::WriteZero.into());
        }
        rest = &rest[wrote..];
    }
    Ok(())
}

// Chunk after chunk, turn by turn.
fn run(input: &mut Stdin, output: &mut Stdout, memory: &mut Memory) -> Went
    requires { here start_run memory.old ≡ start_held }
    ensures { Came (here result.run memory.new) result }
{
    let mut chunk = [0u8; CHUNK];
    let mut went = Went::default();
    // Nothing says that a text ends, and a proved loop must: these are more calls than can come.
    for _ in 0..u64::MAX {
        if !goes_on(went.flow) {
            break;
        }
        let at = went.at;
        let have = went.have;
        if at < have {
            let told = went.run.advance(&chunk[..have], at, memory);
            let wrote = write(output, &memory.store.out, told.count);
            went = after_write(told.run, told.next, have, wrote);
        } else {
            let got = input.read(&mut chunk);
            went = after_read(went.run, got);
        }
    }
    went
}

// What is still to be written stands at the front of out then: how many bytes. Nothing, where something failed.
fn last(went: Went, memory: &mut Memory) -> usize
    ensures { Front (last_text went memory.old.buf) memory.old.store.out memory.new.store.out result }
{
    match went.flow {
        Flow::Ended => went.run.finish(&memory.buf, &mut memory.store.out),
        _ => 0,
    }
}

// By whether that was written.
fn end_flow(flow: Flow, wrote: io::Result<()>) -> Flow
    ensures { result ≡ end_flow flow wrote }
{
    match flow {
        Flow::Ended => write_flow(wrote, true),
        _ => flow,
    }
}

// The text was not one of the form, or its load was refused: the run was over before the text was, or there was something left to print.
#[tactic(auto, unfolding(crate::specs::Calls::not_taken))]
fn not_taken(run: Run, count: usize) -> bool
    ensures { result ≡ not_taken run count }
{
    run.phase.is_over() | (0 < count)
}

// Says on standard error what failed, and where nothing did that the text was not taken: bin/sofaquery makes an exit status of it, since a
// program of the language has none.
fn tell(flow: Flow, bad: bool, error: &mut Stderr) {
    let said: &[u8] = match flow {
        Flow::Ended if bad => b"sofaquery: a form error, or a refused load\n",
        Flow::Ended | Flow::More => return,
        Flow::Unread => b"sofaquery: standard input could not be read\n",
        Flow::Unwritten => b"sofaquery: standard output could not be written\n",
    };
    // There is nowhere to say that this failed.
    let _ = write(error, said, said.len());
}

fn end(went: Went, output: &mut Stdout, memory: &mut Memory, error: &mut Stderr)
    requires { Ends went memory.old }
{
    let count = last(went, memory);
    let wrote = write(output, &memory.store.out, count);
    let bad = not_taken(went.run, count);
    tell(end_flow(went.flow, wrote), bad, error);
}

fn main(rt: HostRuntime) {
    let mut input = rt.stdin();
    let mut output = rt.stdout();
    // Written out here, and not answered by a function, so that nothing copies it.
    let mut memory = Memory {
        buf: [0; LINE],
        store: Store {
            given: SetLists {
                positions: [0.0; POSITIONS],
                responses: [0.0; SAMPLES],
                delays: [0.0; SAMPLES],
            },
            work: WorkLists {
                left: [0; POINTS],
                right: [0; POINTS],
                neighbours: [0; NEIGHBOURS],
                cartesian: [0.0; POSITIONS],
            },
            ears: Ears {
                left: [0.0; SAMPLES],
                right: [0.0; SAMPLES],
            },
            out: [0; BLOCK],
        },
    };
    let went = run(&mut input, &mut output, &mut memory);
    end(went, &mut output, &mut memory, &mut rt.stderr());
}
