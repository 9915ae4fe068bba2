// Document 01, the program `line`: a table from standard input; the verdict, its figures and a run to standard output.
#![tactic(auto)]

ghost use Rattle.std.specs.Prelude.{◌≡◌, ◌≤◌, length, take, IfSome, OnOk};
ghost use Rattle.std.specs.Io.KnownBytes.{Appends};
ghost use Rattle.listing.specs.LineText.{Lent, line_text};
ghost use Rattle.listing.specs.Listing.{is_reachable};

use input::fill;
use listing::{put_answer, put_ran};
use model::{Refusal, Verdict};
use reach::answer_and_run;
use records::RECORD_LENGTH;
use scratch::{NEEDED, NEEDED_PER_RECORD};
use std::io;
use std::io::{Read, Write};

// The bytes of the input that are read: those behind them change nothing.
const INPUT: usize = 65536;

// The bytes that a text has room in.
const TEXT: usize = 65536;

// The records that the log can hold.
const RECORDS: usize = 2000;

fn is_reachable(answered: Result<Verdict, Refusal>) -> bool
    ensures { result ≡ is_reachable answered }
{
    matches!(answered, Ok(Verdict::Reachable { .. }))
}

// Document 01's text for an input: the answer's lines, and behind a reachable answer the run's. The table is saturated once.
fn respond(
    input: &[u8],
    log: &mut [u8],
    scratch: &mut [u8],
    page: &mut [u16],
    out: &mut [u8],
) -> usize
    requires { Lent log.old scratch.old page.old × (65536 ≤ length out.old) }
    ensures { (take result out.new ≡ line_text input.now) × (result ≤ length out.new) }
{
    let both = answer_and_run(input, log, scratch, page);
    let end = put_answer(out, 0, both.answered);
    if is_reachable(both.answered) {
        return put_ran(out, end, both.ran, page);
    }
    end
}

// Reads a table and writes its text, with a log of so many records, the scratch for it, and a page of 10,000 places.
fn serve<R: Read, W: Write>(from: &mut R, to: &mut W) -> io::Result<()>
    ensures { OnOk result (IfSome (R.remaining from.old) (λ input. Appends (W.contents to.old) (W.contents to.new) (line_text input))) }
{
    let mut input = [0u8; INPUT];
    let mut log = [0u8; RECORDS * RECORD_LENGTH];
    let mut scratch = [0u8; NEEDED + NEEDED_PER_RECORD * RECORDS];
    let mut page = [0u16; 10000];
    let mut text = [0u8; TEXT];
    let n = fill(from, &mut input)?;
    let end = respond(&input[..n], &mut log, &mut scratch, &mut page, &mut text);
    to.write_all(&text[..end])
}

fn main(rt: HostRuntime) -> io::Result<()> {
    serve(&mut rt.stdin(), &mut rt.stdout())
}
