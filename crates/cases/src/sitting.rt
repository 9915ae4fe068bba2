// A desk from its opening on: whoever looks at what opening told holds a desk that every call may be made on.
ghost use Rattle.std.specs.Prelude.{◌≤◌, length};
ghost use Rattle.desk.specs.Promises.{Good};

use crate::printing::{print_bytes, print_call, print_end, print_named, print_refused, print_text};
use crate::text::{COUNT, FIRE, LOOK, RETURN, SAVE, content, kind_of, next_line, read_numbers};
use desk::{Counts, Desk, Sight};
use model::Refusal;
use std::io::Print;

// ---- what the calls tell
// That a call is done, or why it is refused.
fn print_done<T: Copy>(out: &impl Print, done: Result<T, Refusal>) {
    match done {
        Ok(_) => print_text(out, b" done"),
        Err(refusal) => print_refused(out, refusal.number, refusal.place),
    }
    print_end(out);
}

fn print_fired(out: &impl Print, fired: Result<u8, Refusal>) {
    match fired {
        Ok(processes) => print_named(out, b" fired", &[u64::from(processes)]),
        Err(refusal) => print_refused(out, refusal.number, refusal.place),
    }
    print_end(out);
}

fn print_pile(out: &impl Print, pile: &[u8], length: usize) {
    print_named(out, b" pile", &[length as u64]);
    print_text(out, b":");
    let n = length.min(pile.len());
    print_bytes(out, &pile[0..n]);
    print_end(out);
}

fn print_sight(out: &impl Print, s: Sight) {
    let g = s.states;
    let pile = s.pile;
    print_named(
        out,
        b" states",
        &[g.s0 as u64, g.s1 as u64, g.s2 as u64, g.s3 as u64],
    );
    print_pile(out, &pile, s.length);
}

fn print_counted(out: &impl Print, c: Counts) {
    print_named(
        out,
        b" counts",
        &[c.steps[0], c.steps[1], c.steps[2], c.steps[3]],
    );
    print_end(out);
}

// ---- calls
// One call, and what it gives.
fn take_call(out: &impl Print, d: &mut Desk, kind: u16, n: usize)
    requires { Good d.old }
    ensures { Good d.new }
{
    let name = (n % 256) as u8;
    match kind {
        LOOK => print_sight(out, d.look()),
        COUNT => print_counted(out, d.counts()),
        FIRE => print_fired(out, d.fire((n % 65536) as u16)),
        SAVE => print_done(out, d.save(name)),
        RETURN => print_done(out, d.return_to(name)),
        _ => print_done(out, d.forget(name)),
    }
}

// The first number of a line.
fn number_of(line: &[u8]) -> usize {
    let mut numbers = [0usize; 1];
    read_numbers(line, 10, &mut numbers);
    numbers[0]
}

// The calls at the desk, up to an empty line; gives where it ends.
fn work(out: &impl Print, opened: Desk, text: &[u8], from: usize) -> usize
    requires { Good opened × (from ≤ length text.now) }
    ensures { (from ≤ result) × (result ≤ length text.now) }
{
    let mut d = opened;
    let mut at = from;
    while at < text.len() {
        let next = next_line(text, at);
        let line = content(&text[at..next]);
        at = next;
        if line.len() == 0 {
            break;
        }
        print_call(out, line);
        take_call(out, &mut d, kind_of(line), number_of(line));
    }
    at
}

// A desk is worked at only where there is one.
pub(crate) fn open_desk(out: &impl Print, table: &[u8], text: &[u8], from: usize) -> usize
    requires { from ≤ length text.now }
    ensures { (from ≤ result) × (result ≤ length text.now) }
{
    let opened = Desk::open(table);
    print_done(out, opened);
    match opened {
        Ok(desk) => work(out, desk, text, from),
        Err(_) => from,
    }
}
