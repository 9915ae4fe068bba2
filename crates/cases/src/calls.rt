// The calls on a table: reading, answer, run and walk. The buffers that a call is lent are filled with 7 beforehand.
ghost use Rattle.std.specs.Prelude.{◌≤◌, length};

use crate::building::change_all;
use crate::printing::{
    print_answered, print_buffer, print_bytes, print_end, print_log, print_named, print_number,
    print_page, print_parsed, print_places, print_ran, print_text,
};
use crate::text::{RUN, WALK, get};
use buffers::copy;
use model::{Refusal, Run, Verdict};
use reach::{answer, run};
use reading::read;
use std::io::Print;
use table::Table;
use walk::{FIGURES, walk};

// The longest table that is changed, and the longest buffers that are lent: a log or a pile, the scratch and the page.
const TABLE: usize = 256;

const FIRST: usize = 600;

const SCRATCH: usize = 34200;

const PAGE: usize = 1000000;

// ---- reading
// With changed bytes: the numbers are a place and a value for each.
pub(crate) fn show_read(out: &impl Print, table: &[u8], numbers: &[usize]) {
    if numbers.len() == 0 {
        print_parsed(out, read(table));
        return;
    }
    let n = table.len().min(TABLE);
    let mut changed = [0u8; TABLE];
    copy(&table[0..n], &mut changed);
    change_all(&mut changed, numbers);
    print_parsed(out, read(&changed[0..n]));
}

// The number and the place of a refusal in one, 0 for an accepted table.
fn refusal_of(parsed: Result<Table, Refusal>) -> usize {
    match parsed {
        Ok(_table) => 0,
        Err(refusal) => 256 * refusal.place.min(65535) + usize::from(refusal.number),
    }
}

// The first n bytes, where they are read otherwise than one byte less.
fn show_cut(out: &impl Print, table: &[u8], n: usize, before: usize) -> usize
    requires { n ≤ length table.now }
{
    let p = read(&table[0..n]);
    let now = refusal_of(p);
    if now != before {
        print_named(out, b"from", &[n as u64]);
        print_parsed(out, p);
    }
    now
}

// Every beginning that is shorter than the whole: a line for the first that is read so.
pub(crate) fn show_cuts(out: &impl Print, table: &[u8]) {
    print_end(out);
    let mut before = 0;
    for n in 0..table.len() {
        before = show_cut(out, table, n, before);
    }
}

// ---- answer and run
fn print_buffers(out: &impl Print, log: &[u8], scratch: &[u8]) {
    print_text(out, b" log");
    print_buffer(out, log);
    print_text(out, b" scratch");
    print_buffer(out, scratch);
}

// The calls alone: what they promise plays no part in what is written.
fn ask(table: &[u8], log: &mut [u8], scratch: &mut [u8]) -> Result<Verdict, Refusal> {
    answer(table, log, scratch)
}

fn ask_run(
    table: &[u8],
    log: &mut [u8],
    scratch: &mut [u8],
    page: &mut [u16],
) -> Result<Run, Refusal> {
    run(table, log, scratch, page)
}

// And the first records of the log.
fn answer_in(out: &impl Print, table: &[u8], log: &mut [u8], scratch: &mut [u8], records: usize) {
    print_answered(out, ask(table, log, scratch));
    print_buffers(out, log, scratch);
    print_end(out);
    print_log(out, log, records);
}

fn run_in(out: &impl Print, table: &[u8], log: &mut [u8], scratch: &mut [u8], page: &mut [u16]) {
    print_ran(out, ask_run(table, log, scratch, page));
    print_buffers(out, log, scratch);
    print_text(out, b" page");
    print_page(out, page);
    print_end(out);
}

// ---- walk
fn rule_at(numbers: &[usize], i: usize) -> u16 {
    (get(numbers, i) % 65536) as u16
}

fn print_figures(out: &impl Print, figures: &[u64; FIGURES]) {
    for i in 0..FIGURES {
        print_number(out, figures[i]);
    }
}

// The part handed back: how many of the rules, and which.
fn print_rest(out: &impl Print, rest: &[u16]) {
    print_named(out, b" rest", &[rest.len() as u64]);
    print_text(out, b" rules");
    print_places(out, rest);
}

fn ask_walk<'a>(
    table: &[u8],
    list: &'a [u16],
    pile: &mut [u8],
    scratch: &mut [u8],
    figures: &mut [u64; FIGURES],
) -> &'a [u16] {
    walk(table, list, pile, scratch, figures)
}

fn walk_list(out: &impl Print, table: &[u8], list: &[u16], pile: &mut [u8], scratch: &mut [u8]) {
    let mut figures = [7u64; FIGURES];
    let rest = ask_walk(table, list, pile, scratch, &mut figures);
    print_text(out, b" figures");
    print_figures(out, &figures);
    print_rest(out, rest);
    print_text(out, b" pile");
    print_bytes(out, pile);
    print_text(out, b" scratch");
    print_buffer(out, scratch);
    print_end(out);
}

// The rules stand behind the first two numbers, at most four.
fn walk_in(out: &impl Print, table: &[u8], numbers: &[usize], pile: &mut [u8], scratch: &mut [u8]) {
    let n = numbers.len().min(6);
    if n < 2 {
        return;
    }
    let rules = [
        rule_at(numbers, 2),
        rule_at(numbers, 3),
        rule_at(numbers, 4),
        rule_at(numbers, 5),
    ];
    walk_list(out, table, &rules[0..n - 2], pile, scratch);
}

// ---- lending
fn call_in(
    out: &impl Print,
    kind: u16,
    table: &[u8],
    numbers: &[usize],
    first: &mut [u8],
    scratch: &mut [u8],
    page: &mut [u16],
) {
    if kind == RUN {
        run_in(out, table, first, scratch, page);
        return;
    }
    if kind == WALK {
        walk_in(out, table, numbers, first, scratch);
        return;
    }
    answer_in(out, table, first, scratch, get(numbers, 2));
}

// In the first places of the buffers, as many as the numbers say.
fn call_in_parts(
    out: &impl Print,
    kind: u16,
    table: &[u8],
    numbers: &[usize],
    first: &mut [u8],
    scratch: &mut [u8],
    page: &mut [u16],
) {
    let f = get(numbers, 0).min(first.len());
    let s = get(numbers, 1).min(scratch.len());
    let p = get(numbers, 2).min(page.len());
    call_in(
        out,
        kind,
        table,
        numbers,
        &mut first[0..f],
        &mut scratch[0..s],
        &mut page[0..p],
    );
}

// The numbers: how long the log or the pile is, the scratch, and the page.
pub(crate) fn lend(out: &impl Print, kind: u16, table: &[u8], numbers: &[usize]) {
    let mut first = [7u8; FIRST];
    let mut scratch = [7u8; SCRATCH];
    let mut page = [7u16; PAGE];
    call_in_parts(
        out,
        kind,
        table,
        numbers,
        &mut first,
        &mut scratch,
        &mut page,
    );
}
