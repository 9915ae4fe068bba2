// Document 01, the text of the program `line`, put into a lent buffer: the answer's lines and the run's. Each function gives the place after
// its text.
#![tactic(auto)]

ghost use Rattle.std.specs.Prelude.{◌++◌, ◌+◌, ◌*◌, ◌≤◌, length};
ghost use Rattle.listing.specs.Listing.{ascii, decimal, line, counted, refused_line, answer_lines, spaced, run_line, run_lines, listed};
ghost use Rattle.listing.specs.Puts.{Puts};

use model::{Refusal, Run, Verdict};

#[tactic(auto, unfolding(crate::specs::Puts::with_text))]
fn put_bytes(out: &mut [u8], at: usize, bytes: &[u8]) -> usize
    requires { at + length bytes.now ≤ length out.old }
    ensures { Puts out.old at bytes.now (length bytes.now) result out.new }
{
    let end = at + bytes.len();
    out[at..end].copy_from_slice(bytes);
    end
}

// The decimal digits, of which a number of 64 bits has at most 20.
fn put_number(out: &mut [u8], at: usize, n: u64) -> usize
    requires { at + 20 ≤ length out.old }
    ensures { Puts out.old at (decimal n) 20 result out.new }
{
    let mut digits = [0u8; 20];
    let k = io::decimal(n, &mut digits);
    put_bytes(out, at, &digits[0..k])
}

// A line of a head and a number.
fn put_line(out: &mut [u8], at: usize, head: &[u8], n: u64) -> usize
    requires { at + length head.now + 21 ≤ length out.old }
    ensures { Puts out.old at (line head.now n) (length head.now + 21) result out.new }
{
    let number = put_bytes(out, at, head);
    let end = put_number(out, number, n);
    put_bytes(out, end, b"\n")
}

// ---- the answer's lines
// The verdict's line, limit records and rounds.
fn put_counted(out: &mut [u8], at: usize, verdict: &[u8], transitions: u32, rounds: u32) -> usize
    requires { at + length verdict.now + 61 ≤ length out.old }
    ensures { Puts out.old at (counted verdict.now transitions rounds) (length verdict.now + 61) result out.new }
{
    let second = put_bytes(out, at, verdict);
    let third = put_line(out, second, b"transitions ", transitions as u64);
    put_line(out, third, b"rounds ", rounds as u64)
}

fn put_refused(out: &mut [u8], at: usize, refusal: Refusal) -> usize
    requires { at + 53 ≤ length out.old }
    ensures { Puts out.old at (refused_line refusal.number refusal.place) 53 result out.new }
{
    let digits = put_bytes(out, at, b"refused ");
    let rest = put_number(out, digits, refusal.number as u64);
    put_line(out, rest, b" at ", refusal.place as u64)
}

// The answer's lines have at most 128 bytes.
pub fn put_answer(out: &mut [u8], at: usize, answered: Result<Verdict, Refusal>) -> usize
    requires { at + 128 ≤ length out.old }
    ensures { Puts out.old at (answer_lines answered) 128 result out.new }
{
    match answered {
        Ok(
            Verdict::Reachable {
                transitions,
                rounds,
                steps,
            },
        ) => {
            let last = put_counted(out, at, b"answer reachable\n", transitions, rounds);
            put_line(out, last, b"steps ", steps as u64)
        }
        Ok(
            Verdict::Unreachable {
                transitions,
                rounds,
            },
        ) => put_counted(out, at, b"answer unreachable\n", transitions, rounds),
        Err(refusal) => put_refused(out, at, refusal),
    }
}

// ---- the run's lines
// A rule number after a space; a number of 16 bits has at most 5 digits.
fn put_rule(out: &mut [u8], at: usize, rule: u16) -> usize
    requires { at + 21 ≤ length out.old }
    ensures { Puts out.old at (ascii " " ++ decimal rule) 6 result out.new }
{
    let digits = put_bytes(out, at, b" ");
    put_number(out, digits, rule as u64)
}

fn put_rules(out: &mut [u8], at: usize, rules: &[u16]) -> usize
    requires { at + 6 * length rules.now + 21 ≤ length out.old }
    ensures { Puts out.old at (spaced rules.now) (6 * length rules.now) result out.new }
{
    let mut end = at;
    for &rule in rules {
        end = put_rule(out, end, rule);
    }
    end
}

fn put_run(out: &mut [u8], at: usize, rules: &[u16]) -> usize
    requires { at + 6 * length rules.now + 24 ≤ length out.old }
    ensures { Puts out.old at (run_line rules.now) (6 * length rules.now + 4) result out.new }
{
    let first = put_bytes(out, at, b"run");
    let end = put_rules(out, first, rules);
    put_bytes(out, end, b"\n")
}

// The run's lines have at most 64 bytes and 6 for each place of the page.
pub fn put_ran(out: &mut [u8], at: usize, ran: Result<Run, Refusal>, page: &[u16]) -> usize
    requires { (listed ran ≤ length page.now) × (at + 6 * length page.now + 64 ≤ length out.old) }
    ensures { Puts out.old at (run_lines ran page.now) (6 * length page.now + 64) result out.new }
{
    match ran {
        Ok(reached) => {
            let last = put_line(out, at, b"peak ", reached.peak as u64);
            put_run(out, last, &page[0..reached.steps as usize])
        }
        Err(refusal) => put_line(out, at, b"run refused ", refusal.number as u64),
    }
}
