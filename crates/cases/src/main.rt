// Cases by hand: reads calls as text, makes them, and writes what each gives and leaves. The head of the file stdin says how a line is read.
#![tactic(auto)]

mod building;
mod calls;
mod printing;
mod sitting;
mod text;

ghost use Rattle.std.specs.Prelude.{◌<◌, ◌≤◌, length};

use crate::building::{append, append_more, change_all};
use crate::calls::{lend, show_cuts, show_read};
use crate::printing::{print_call, print_end, print_named};
use crate::sitting::open_desk;
use crate::text::{
    ANSWER, CUTS, DESK, ITEM, KEEP, MORE, PUT, READ, RUN, TABLE, WALK, base_of, content, get,
    kind_of, next_line, read_numbers,
};
use input::fill;
use std::io;
use std::io::Print;

// The bytes of the input that are read.
const INPUT: usize = 65536;

// The longest table, and the most numbers of a line.
const ROOM: usize = 4096;

const NUMBERS: usize = 24;

// Where the text goes on, and where the table ends.
#[derive(Clone, Copy)]
struct Stage {
    at: usize,
    end: usize,
}

// A call on the table.
fn show(out: &impl Print, kind: u16, numbers: &[usize], table: &[u8]) {
    if kind == READ {
        show_read(out, table, numbers);
        return;
    }
    if kind == CUTS {
        show_cuts(out, table);
        return;
    }
    if (kind == ANSWER) | (kind == RUN) | (kind == WALK) {
        lend(out, kind, table, numbers);
        return;
    }
    print_named(out, b" unknown", &[]);
}

// A line that builds the table, or is a call on it: gives where the table ends then.
fn perform(
    out: &impl Print,
    line: &[u8],
    kind: u16,
    numbers: &[usize],
    table: &mut [u8],
    end: usize,
) -> usize
    requires { end ≤ length table.old }
    ensures { result ≤ length table.new }
{
    if kind == ITEM {
        return append(table, end, numbers);
    }
    if kind == MORE {
        return append_more(table, end, numbers);
    }
    if kind == KEEP {
        return get(numbers, 0).min(end);
    }
    if kind == PUT {
        change_all(table, numbers);
        return end;
    }
    print_call(out, line);
    if kind == TABLE {
        print_end(out);
        return 0;
    }
    show(out, kind, numbers, &table[0..end]);
    end
}

fn perform_line(out: &impl Print, line: &[u8], kind: u16, table: &mut [u8], end: usize) -> usize
    requires { end ≤ length table.old }
    ensures { result ≤ length table.new }
{
    if kind == 0 {
        return end;
    }
    let mut numbers = [0usize; NUMBERS];
    let count = read_numbers(line, base_of(kind), &mut numbers);
    perform(out, line, kind, &numbers[0..count], table, end)
}

// The line at a place, and behind an opening the calls at the desk.
fn step(out: &impl Print, text: &[u8], table: &mut [u8], s: Stage) -> Stage
    requires { (s.at < length text.now) × (s.end ≤ length table.old) }
    ensures { (s.at < result.at) × (result.at ≤ length text.now) × (result.end ≤ length table.new) }
{
    let at = s.at;
    let end = s.end;
    let next = next_line(text, at);
    let line = content(&text[at..next]);
    let kind = kind_of(line);
    if kind == DESK {
        print_call(out, line);
        let after = open_desk(out, &table[0..end], text, next);
        return Stage { at: after, end };
    }
    let longer = perform_line(out, line, kind, table, end);
    Stage {
        at: next,
        end: longer,
    }
}

fn perform_all(out: &impl Print, text: &[u8], table: &mut [u8]) {
    let mut s = Stage { at: 0, end: 0 };
    while s.at < text.len() {
        s = step(out, text, table, s);
    }
}

fn main(rt: HostRuntime) -> io::Result<()> {
    let mut input = [0u8; INPUT];
    let mut table = [0u8; ROOM];
    let n = fill(&mut rt.stdin(), &mut input)?;
    perform_all(&rt.stdout(), &input[0..n], &mut table);
    Ok(())
}
