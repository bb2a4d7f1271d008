// One record of the bench run.
ghost use Rattle.std.specs.Prelude.{◌≡◌, ◌+◌, ◌≤◌, length};
ghost use Rattle.payload.specs.Memory.{put};
ghost use Rattle.frame.specs.Given.{lending};
ghost use Rattle.trace.specs.Lines.{most_line};
ghost use Rattle.trace.specs.Records.{kind_of};
ghost use Rattle.trace.specs.Runs.{start, onward, stop, line_of, step, shown_by};

use super::lines;
use engine::{Counts, Outcome};
use station::Station;

pub(crate) const RECORD: usize = 1024;

// Kind and three zero bytes; the frame stands behind them.
const HEAD: usize = 4;

pub(crate) const FRAME: usize = RECORD - HEAD;

#[derive(Clone, Copy)]
pub enum Kind {
    Lost,
    Frame,
    Bad,
}

// Where a run stands: its station, the number of the next record, and whether a bad one has stopped it.
#[derive(Clone, Copy)]
pub struct Run {
    pub station: Station,
    pub number: u64,
    pub stopped: bool,
}

// A run after a record, and the place behind its line.
#[derive(Clone, Copy)]
pub struct Printed {
    pub run: Run,
    pub place: usize,
}

// From power-on.
pub(crate) fn start() -> Run
    ensures { result ≡ start }
{
    let station = Station::power_on([0; 8], [0; 36]);
    Run {
        station,
        number: 0,
        stopped: false,
    }
}

// The record has left its station. Numbers come round to 0 after the last that 64 bits hold.
fn onward(run: Run, station: Station) -> Run
    ensures { result ≡ onward run station }
{
    Run {
        station,
        number: run.number.wrapping_add(1),
        stopped: run.stopped,
    }
}

fn stop(mut run: Run) -> Run
    ensures { result ≡ stop run }
{
    run.stopped = true;
    run
}

fn kind_of(octets: &[u8]) -> Kind
    ensures { result ≡ kind_of octets.now }
{
    if octets.len() != RECORD || octets[1] != 0 || octets[2] != 0 || octets[3] != 0 {
        return Kind::Bad;
    }
    match octets[0] {
        0 => Kind::Lost,
        1 => Kind::Frame,
        _ => Kind::Bad,
    }
}

// The line of what a record's call has answered; the run goes on.
fn print_outcome(run: Run, o: Outcome, c: Counts, text: &mut [u8], place: usize) -> Printed
    requires { place + most_line ≤ length text.old }
    ensures { (result.run ≡ onward run o.station) × (text.new ≡ put text.old place (line_of run.number o c)) × (result.place ≡ place + length (line_of run.number o c)) × (result.place ≤ place + most_line) }
{
    let next = lines::put_line(
        run.number,
        u64::from(o.answer.number()),
        u64::from(o.station.activation.number()),
        c.records as u64,
        c.replies as u64,
        c.bytes as u64,
        text,
        place,
    );
    Printed {
        run: onward(run, o.station),
        place: next,
    }
}

// One record: it acts on the station, and its line is put into the text. After a bad record nothing acts or is printed.
pub(crate) fn print_record(
    run: Run,
    octets: &[u8],
    memory: &mut [u8],
    plan: &mut [u16],
    replies: &mut [u8],
    deliveries: &mut [u8],
    text: &mut [u8],
    place: usize,
) -> Printed
    requires { place + most_line ≤ length text.old }
    ensures { (record { at = record { run = result.run; lent = lending memory.new plan.new replies.new deliveries.new }; text = text.new; place = result.place } ≡ shown_by (step (record { run = run; lent = lending memory.old plan.old replies.old deliveries.old }) octets.now) text.old place) × (result.place ≤ place + most_line) }
{
    if run.stopped {
        return Printed { run, place };
    }
    match kind_of(octets) {
        Kind::Lost => {
            let o = engine::lost(run.station);
            print_outcome(run, o, Counts::none(), text, place)
        }
        Kind::Frame => {
            let r = engine::frame(
                run.station,
                memory,
                &octets[HEAD..],
                0,
                plan,
                replies,
                deliveries,
            );
            let o = Outcome {
                answer: r.answer,
                station: r.station,
            };
            print_outcome(run, o, r.counts, text, place)
        }
        Kind::Bad => {
            let next = lines::put_bad(run.number, text, place);
            Printed {
                run: stop(run),
                place: next,
            }
        }
    }
}
