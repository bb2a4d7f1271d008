// What one read has brought: its whole records, and what is left of it.
ghost use Rattle.std.specs.Prelude.{◌≡◌, ◌+◌, ◌-◌, ◌*◌, ◌/◌, ◌≤◌, length, take, drop};
ghost use Rattle.payload.specs.Memory.{put};
ghost use Rattle.frame.specs.Given.{lending};
ghost use Rattle.trace.specs.Lines.{most_line};
ghost use Rattle.trace.specs.Records.{record_bytes, records};
ghost use Rattle.trace.specs.Runs.{shown, turned};

use super::records;
use super::records::{Printed, Run};

// Where the run then stands, how many bytes of input are kept, and how many of the text are to be written.
#[derive(Clone, Copy)]
pub struct Handled {
    pub run: Run,
    pub kept: usize,
    pub written: usize,
}

// Records one after another, of which the input holds enough, and the text room for their lines.
fn print_records(
    run: Run,
    input: &[u8],
    count: usize,
    memory: &mut [u8],
    plan: &mut [u16],
    replies: &mut [u8],
    deliveries: &mut [u8],
    text: &mut [u8],
) -> Printed
    requires { (record_bytes * count ≤ length input.now) × (most_line * count ≤ length text.old) }
    ensures { (record { at = record { run = result.run; lent = lending memory.new plan.new replies.new deliveries.new }; text = text.new; place = result.place } ≡ shown (record { run = run; lent = lending memory.old plan.old replies.old deliveries.old }) (records count input.now) text.old 0) × (result.place ≤ most_line * count) }
{
    let mut p = Printed { run, place: 0 };
    for i in 0..count {
        let from = i * records::RECORD;
        let to = from + records::RECORD;
        p = records::print_record(
            p.run,
            &input[from..to],
            memory,
            plan,
            replies,
            deliveries,
            text,
            p.place,
        );
    }
    p
}

// What lies from one place to another, at the front.
fn move_to_front(input: &mut [u8], from: usize, to: usize)
    requires { (from ≤ to) × (to ≤ length input.old) }
    ensures { input.new ≡ put input.old 0 (take (to - from) (drop from input.old)) }
{
    input.copy_within(from..to, 0);
}

// A read has filled the input up to a place.
pub(crate) fn turn(
    run: Run,
    input: &mut [u8],
    filled: usize,
    memory: &mut [u8],
    plan: &mut [u16],
    replies: &mut [u8],
    deliveries: &mut [u8],
    text: &mut [u8],
) -> Handled
    requires { (filled ≤ length input.old) × (most_line * (filled / record_bytes) ≤ length text.old) }
    ensures { (record { at = record { run = result.run; lent = lending memory.new plan.new replies.new deliveries.new }; input = input.new; kept = result.kept; text = text.new; written = result.written } ≡ turned (record { run = run; lent = lending memory.old plan.old replies.old deliveries.old }) input.old filled text.old) × (result.kept ≤ record_bytes - 1) × (result.written ≤ most_line * (filled / record_bytes)) }
{
    let count = filled / records::RECORD;
    let used = count * records::RECORD;
    let p = print_records(run, input, count, memory, plan, replies, deliveries, text);
    move_to_front(input, used, filled);
    Handled {
        run: p.run,
        kept: filled - used,
        written: p.place,
    }
}
