// What the calls give, as text.
ghost use Rattle.std.specs.Prelude.{◌≡◌, ◌≤◌, length};

use crate::building::one_if;
use model::{Refusal, Run, Verdict};
use numbers::{three_at, two_at};
use std::io::Print;
use table::Table;

// The bytes of a record, the most records that are written, and how many of a buffer's first places are.
const RECORD: usize = 28;

const MOST: usize = 64;

const FIRST: usize = 4;

// ---- bytes and numbers
// Bytes as they are. The calls go on after a write that fails: then the text is not the one that is wanted.
pub(crate) fn print_text(out: &impl Print, bytes: &[u8]) {
    let _written = out.write_all(bytes);
}

fn print_digits(out: &impl Print, n: u64) {
    let _written = out.print(n);
}

pub(crate) fn print_end(out: &impl Print) {
    print_text(out, b"\n");
}

// The line of a call: what it gives follows.
pub(crate) fn print_call(out: &impl Print, line: &[u8]) {
    print_text(out, line);
    print_text(out, b":");
}

pub(crate) fn print_number(out: &impl Print, n: u64) {
    print_text(out, b" ");
    print_digits(out, n);
}

fn print_numbers(out: &impl Print, numbers: &[u64]) {
    for i in 0..numbers.len() {
        print_number(out, numbers[i]);
    }
}

// A word and numbers.
pub(crate) fn print_named(out: &impl Print, word: &[u8], numbers: &[u64]) {
    print_text(out, word);
    print_numbers(out, numbers);
}

fn print_byte(out: &impl Print, x: u8) {
    print_number(out, x as u64);
}

fn print_place(out: &impl Print, x: u16) {
    print_number(out, x as u64);
}

pub(crate) fn print_bytes(out: &impl Print, bytes: &[u8]) {
    for i in 0..bytes.len() {
        print_byte(out, bytes[i]);
    }
}

pub(crate) fn print_places(out: &impl Print, places: &[u16]) {
    for i in 0..places.len() {
        print_place(out, places[i]);
    }
}

// ---- answers
pub(crate) fn print_refused(out: &impl Print, number: u8, place: usize) {
    print_named(out, b" refused", &[number as u64]);
    print_named(out, b" at", &[place as u64]);
}

fn print_reachable(out: &impl Print, transitions: u32, rounds: u32, steps: u32) {
    print_named(
        out,
        b" reachable",
        &[transitions as u64, rounds as u64, steps as u64],
    );
}

fn print_unreachable(out: &impl Print, transitions: u32, rounds: u32) {
    print_named(out, b" unreachable", &[transitions as u64, rounds as u64]);
}

fn print_peak(out: &impl Print, peak: u32) {
    print_named(out, b" peak", &[peak as u64]);
}

pub(crate) fn print_answered(out: &impl Print, answered: Result<Verdict, Refusal>) {
    match answered {
        Ok(
            Verdict::Reachable {
                transitions,
                rounds,
                steps,
            },
        ) => {
            print_reachable(out, transitions, rounds, steps);
        }
        Ok(
            Verdict::Unreachable {
                transitions,
                rounds,
            },
        ) => {
            print_unreachable(out, transitions, rounds);
        }
        Err(refusal) => {
            print_refused(out, refusal.number, refusal.place);
        }
    }
}

pub(crate) fn print_ran(out: &impl Print, ran: Result<Run, Refusal>) {
    match ran {
        Ok(run) => {
            print_reachable(out, run.transitions, run.rounds, run.steps);
            print_peak(out, run.peak);
        }
        Err(refusal) => {
            print_refused(out, refusal.number, refusal.place);
        }
    }
}

// The counts of an accepted table: processes, letters, rules, transitions, accepting, pile.
pub(crate) fn print_parsed(out: &impl Print, parsed: Result<Table, Refusal>) {
    match parsed {
        Ok(t) => {
            print_named(
                out,
                b" accepted",
                &[
                    t.processes as u64,
                    t.letters as u64,
                    t.rules as u64,
                    t.transitions as u64,
                    t.accepting as u64,
                    t.pile as u64,
                ],
            );
        }
        Err(refusal) => {
            print_refused(out, refusal.number, refusal.place);
        }
    }
    print_end(out);
}

// ---- what is left in a buffer: its first places, and how many are 0 and how many 7
fn count_bytes(bytes: &[u8], x: u8) -> usize {
    let mut n = 0;
    for i in 0..bytes.len() {
        n += one_if(bytes[i] == x);
    }
    n
}

fn count_places(page: &[u16], x: u16) -> usize {
    let mut n = 0;
    for i in 0..page.len() {
        n += one_if(page[i] == x);
    }
    n
}

fn print_counts(out: &impl Print, zeros: usize, sevens: usize) {
    print_named(out, b" zeros", &[zeros as u64]);
    print_named(out, b" sevens", &[sevens as u64]);
}

pub(crate) fn print_buffer(out: &impl Print, bytes: &[u8]) {
    let n = FIRST.min(bytes.len());
    print_bytes(out, &bytes[0..n]);
    print_counts(out, count_bytes(bytes, 0), count_bytes(bytes, 7));
}

pub(crate) fn print_page(out: &impl Print, page: &[u16]) {
    let n = FIRST.min(page.len());
    print_places(out, &page[0..n]);
    print_counts(out, count_places(page, 0), count_places(page, 7));
}

// ---- records
// Numbers of two bytes.
fn print_twos(out: &impl Print, bytes: &[u8]) {
    for i in 0..bytes.len() / 2 {
        print_place(out, two_at(bytes, 2 * i));
    }
}

// Letter and groups; round, rule and path; steps.
fn print_record(out: &impl Print, bytes: &[u8])
    requires { length bytes.now ≡ 28 }
{
    print_text(out, b"record");
    print_bytes(out, &bytes[0..9]);
    print_twos(out, &bytes[9..25]);
    print_number(out, u64::from(three_at(bytes, 25)));
    print_end(out);
}

fn print_records(out: &impl Print, log: &[u8]) {
    for i in 0..log.len() / RECORD {
        print_record(out, &log[RECORD * i..RECORD * i + RECORD]);
    }
}

// The first so many records of a log, a line for each.
pub(crate) fn print_log(out: &impl Print, log: &[u8], count: usize) {
    let end = (RECORD * count.min(MOST)).min(log.len());
    print_records(out, &log[0..end]);
}
