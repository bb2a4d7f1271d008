// Why did it stay dark: standard input holds a state's octets and behind them one frame; for each structure of the frame's map a
// line says what became of it in that state.
#![tactic(auto)]

mod report;
mod structures;
mod words;

ghost use Rattle.std.specs.Prelude.{◌≤◌, length};
ghost use Rattle.why_dark.specs.Reads.{Within};
ghost use Rattle.why_dark.specs.Report.{most_text};

use std::io;
use std::io::{ErrorKind, Read, Write};

// One octet more than an input can have: a longer one is known by it, and no more of it is read.
const INPUT: usize = report::MOST_INPUT + 1;

const MOST_LINE: usize = 128;

const TEXT: usize = engine::MOST_STRUCTURES * MOST_LINE;

// Room for what the system says of a failed call.
const WORDS: usize = 256;

// Says on standard error which stream failed, and why: in the system's words, without the number that the library puts behind them.
fn fail(rt: &impl Eprint, stream: &str, error: &io::Error) {
    let mut room = [0u8; WORDS];
    let mut rest = &mut room[..];
    let _ = write!(rest, "{error}");
    let said = WORDS.saturating_sub(rest.len());
    let words = str::from_utf8(&room[..said]).unwrap_or("");
    let why = match words.split_once(" (os error ") {
        Some((before, _)) => before,
        None => words,
    };
    let _ = eprintln!(rt; "why_dark: {stream}: {why}");
}

// Reads behind what was read: up to where the input is now filled, or nothing if it has ended. A read that a signal interrupts
// has brought nothing; one into a full input has nothing to bring, and ends it.
fn read_on(stdin: &mut impl Read, input: &mut [u8], filled: usize) -> io::Result<Option<usize>>
    requires { filled ≤ length input.old }
    ensures { Within (length input.old) result }
{
    match stdin.read(&mut input[filled..]) {
        Ok(0) => Ok(None),
        Ok(n) => Ok(Some(filled + n)),
        Err(e) => {
            if e.kind() == ErrorKind::Interrupted {
                return Ok(Some(filled));
            }
            Err(e)
        }
    }
}

// The exit status is 0 whatever an input is: what is wrong with one is told where a script looks, among the lines.
fn print(rt: &(impl Print + Eprint), input: &[u8], filled: usize, text: &mut [u8])
    requires { (filled ≤ length input.now) × (most_text ≤ length text.old) }
{
    let n = report::report(&input[0..filled], text);
    if let Err(e) = Print::write_all(rt, &text[0..n]) {
        fail(rt, "standard output", &e);
    }
}

// A proved loop has to end, and nothing says that the input does: there are as many turns as no run uses up.
fn main(rt: HostRuntime) {
    let mut stdin = rt.stdin();
    let mut input = [0u8; INPUT];
    let mut text = [0u8; TEXT];
    let mut filled = 0;
    for _turn in 0..u64::MAX {
        match read_on(&mut stdin, &mut input, filled) {
            Ok(Some(n)) => {
                filled = n;
            }
            Ok(None) => {
                print(&rt, &input, filled, &mut text);
                return;
            }
            Err(e) => {
                fail(&rt, "standard input", &e);
                return;
            }
        }
    }
}
