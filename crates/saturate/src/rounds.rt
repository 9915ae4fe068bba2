// Rounds: each adds what its rules add to the records of the rounds before it.
ghost use Rattle.std.specs.Prelude.{◌≡◌, cond, ◌&&◌, ◌+◌, ◌*◌, ◌≤◌, eqb, leb, ltb, length};
ghost use Rattle.model.specs.Records.{letter_at, record_length};
ghost use Rattle.records.specs.Entries.{HasRecord};
ghost use Rattle.table.specs.Reading.{Holds, saturated_in};
ghost use Rattle.scratch.specs.Regions.{keys_at, links_end};
ghost use Rattle.keys.specs.Keys.{Indexed, KeyRoom};
ghost use Rattle.rules.specs.Rules.{letter_ceiling, rule_ceiling, rules_end};
ghost use Rattle.saturate.specs.Adding.{RoundAdded, told};
ghost use Rattle.saturate.specs.Rounds.{Activated, FreshLetters, KeysIndexed, LetterIn, RoundBegins, RoundScratch, ScratchReady};

use crate::Full;
use buffers::clear_part;
use heads::{Progress, Round, add_head};
use records::letter_at;
use rings::append;
use rules::{activate, activate_all, mark_writers, next_active, order_rules};
use scratch::{DEPTH_BYTES, PASSED, RINGS, keys_at};
use table::{Accepted, Table};

// Makes the scratch ready for the rounds: the rules in order, no state passed, and no record in a ring or in the index.
pub fn prepare(table: &Accepted, log: &[u8], scratch: &mut [u8], n: usize)
    requires { (links_end n ≤ length scratch.old) × (n ≤ 65535) }
    ensures { ScratchReady table.now.bytes.now table.now.counts n log.now scratch.old scratch.new }
{
    order_rules(table, scratch);
    mark_writers(table, scratch);
    clear_part(scratch, PASSED, PASSED + DEPTH_BYTES);
    rings::clear(log, scratch, RINGS, n);
    keys::clear(log, scratch, keys_at(n), n);
}

// The letters with that of record r.
fn with_letter(log: &[u8], letters: u32, r: usize) -> u32
    requires { HasRecord log.now r }
    ensures { LetterIn letters (letter_at log.now r) result }
{
    letters | (1 << (letter_at(log, r) % 32))
}

// The letters of the records from lo on and below base, one bit each.
fn fresh_letters(log: &[u8], lo: usize, base: usize) -> u32
    requires { base * record_length ≤ length log.now }
    ensures { FreshLetters log.now lo base result }
{
    let mut letters = 0;
    for r in lo..base {
        letters = with_letter(log, letters, r);
    }
    letters
}

// Makes the positions active that the round looks at: in round 1 all, later those whose rules write a fresh letter.
fn set_active(t: Table, scratch: &mut [u8], round: Round)
    requires { (t.rules ≤ rule_ceiling) × (t.letters ≤ letter_ceiling) × (rules_end ≤ length scratch.old) }
    ensures { Activated t round.number round.fresh scratch.old scratch.new }
{
    if round.number == 1 {
        activate_all(scratch, t.rules);
    } else {
        activate(scratch, t.letters, round.fresh);
    }
}

// Adds the records of the last round to the index, unless no rule stands at the first active position, so that nothing is looked up.
fn index_keys(t: Table, log: &[u8], scratch: &mut [u8], round: Round, position: usize)
    requires { (round.lo ≤ round.base) × KeyRoom log.now round.base round.n (keys_at round.n) scratch.old × Indexed log.now round.lo round.n (keys_at round.n) scratch.old }
    ensures { KeysIndexed t round.base round.n position log.now scratch.old scratch.new }
{
    if position < t.rules {
        keys::append(
            log,
            scratch,
            keys_at(round.n),
            round.n,
            round.lo,
            round.base,
        );
    }
}

// Whether there is a head left, and the log has room.
fn goes_on(t: Table, at: Progress, n: usize) -> bool
    ensures { result ≡ (leb at.count n && ltb at.position t.rules) }
{
    at.count <= n && at.position < t.rules
}

// What a round tells that began with `base` records and has come to `count`, or more than the n that the log can hold.
fn told(base: usize, count: usize, n: usize) -> Result<Option<usize>, Full>
    ensures { result ≡ told base count n }
{
    if n < count {
        Err(Full)
    } else if count == base {
        Ok(None)
    } else {
        Ok(Some(count))
    }
}

// Adds round k + 1 to the records of rounds up to k, which are `base`, those of round k from lo on. n is the number of records that the log can hold. Rings
// and index have the records below lo, and get those of round k. Each record is written with its steps. Gives how many records there are
// then, where the round adds any.
pub fn add_round(
    table: &Accepted,
    log: &mut [u8],
    scratch: &mut [u8],
    lo: usize,
    base: usize,
    n: usize,
    k: usize,
) -> Result<Option<usize>, Full>
    requires { RoundBegins table.now.bytes.now table.now.counts lo base n k log.old scratch.old }
    ensures request_2_3 { RoundAdded (saturated_in table.now.bytes.now) k log.old result log.new }
    ensures scratch { RoundScratch table.now.bytes.now table.now.counts base n k log.new scratch.old scratch.new }
{
    append(log, scratch, RINGS, n, lo, base);
    let fresh = fresh_letters(log, lo, base);
    let round = Round {
        number: k + 1,
        lo,
        base,
        fresh,
        n,
    };
    set_active(table.counts, scratch, round);
    let first = next_active(scratch, 0);
    index_keys(table.counts, log, scratch, round, first);
    let mut at = Progress {
        position: first,
        count: base,
    };
    while goes_on(table.counts, at, n) {
        at = add_head(table, log, scratch, round, at.position, at.count);
    }
    told(base, at.count, n)
}
