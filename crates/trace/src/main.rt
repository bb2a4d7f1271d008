// The bench run: records of 1,024 bytes from standard input, a line for each to standard output.
#![tactic(auto)]

mod blocks;
mod lines;
mod records;

ghost use Rattle.std.specs.Prelude.{◌≤◌, length};
ghost use Rattle.trace.specs.Lines.{most_line};
ghost use Rattle.trace.specs.Reads.{Within};

use records::Run;
use std::io;
use std::io::{ErrorKind, Read, Write};

// A read brings up to 64 KB.
const INPUT: usize = 65536;

// The lines of as many records as the input holds, and room to spare.
const TEXT: usize = 8192;

const DELIVERIES: usize = records::FRAME + payload::MEMORY_BYTES;

// Room for what the system says of a failed call.
const WORDS: usize = 256;

// Says on standard error which stream failed, and why: in the system's words, without the number that the library puts behind them.
fn fail(rt: &impl Eprint, stream: &str, error: &io::Error) {
    let mut room = [0u8; WORDS];
    let mut rest = &mut room[..];
    let _ = write!(rest, "{error}");
    let said = WORDS.saturating_sub(rest.len());
    let words = str::from_utf8(&room[..said]).unwrap_or("");
    let why = match words.split_once(" (os error ") {
        Some((before, _)) => before,
        None => words,
    };
    let _ = eprintln!(rt; "trace: {stream}: {why}");
}

// Reads what is there, up to 64 KB, behind what was kept: up to where the input is now filled, or nothing if it has ended.
// A read that a signal interrupts has brought nothing.
fn read_on(stdin: &mut impl Read, input: &mut [u8], kept: usize) -> io::Result<Option<usize>>
    requires { kept ≤ length input.old }
    ensures { Within (length input.old) result }
{
    match stdin.read(&mut input[kept..]) {
        Ok(0) => Ok(None),
        Ok(n) => Ok(Some(kept + n)),
        Err(e) => {
            if e.kind() == ErrorKind::Interrupted {
                return Ok(Some(kept));
            }
            Err(e)
        }
    }
}

// Writes the front of the text, and says so where it cannot.
fn write_out(rt: &(impl Print + Eprint), text: &[u8], n: usize) -> bool
    requires { n ≤ length text.now }
{
    match Print::write_all(rt, &text[0..n]) {
        Ok(()) => true,
        Err(e) => {
            fail(rt, "standard output", &e);
            false
        }
    }
}

// The input has ended: what was kept is a record that is too short, and so a bad one.
fn finish(rt: &(impl Print + Eprint), run: Run, kept: usize, text: &mut [u8])
    requires { most_line ≤ length text.old }
{
    if kept == 0 {
        return;
    }
    let place = lines::put_bad(run.number, text, 0);
    write_out(rt, text, place);
}

// A proved loop has to end, and nothing says that the input does: there are as many turns as no run uses up.
fn main(rt: HostRuntime) {
    let mut stdin = rt.stdin();
    let mut input = [0u8; INPUT];
    let mut memory = [0u8; payload::MEMORY_BYTES];
    let mut plan = [0u16; plan::PLAN_NUMBERS];
    let mut replies = [0u8; frame::given::REPLY_OCTETS];
    let mut deliveries = [0u8; DELIVERIES];
    let mut text = [0u8; TEXT];
    let mut run = records::start();
    let mut kept = 0;
    for _turn in 0..u64::MAX {
        match read_on(&mut stdin, &mut input, kept) {
            Ok(Some(filled)) => {
                let h = blocks::turn(
                    run,
                    &mut input,
                    filled,
                    &mut memory,
                    &mut plan,
                    &mut replies,
                    &mut deliveries,
                    &mut text,
                );
                if !write_out(&rt, &text, h.written) {
                    return;
                }
                run = h.run;
                kept = h.kept;
                if run.stopped {
                    return;
                }
            }
            Ok(None) => {
                finish(&rt, run, kept, &mut text);
                return;
            }
            Err(e) => {
                fail(&rt, "standard input", &e);
                return;
            }
        }
    }
}
