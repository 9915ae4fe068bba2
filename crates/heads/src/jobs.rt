// The search for what a rule adds: its written letters with their processes, and the last of them that a record of the last round reads.
ghost use Rattle.std.specs.Prelude.{◌≡◌, cond, ◌+◌, ◌<◌, ◌≤◌, length};
ghost use Rattle.rules.specs.Rules.{has_letter};
ghost use Rattle.table.specs.Reading.{Holds, rule_in};
ghost use Rattle.heads.specs.Jobs.{HeadOf, JobOf, WordOf};

use crate::{Head, Round};
use model::WRITTEN_PLACES;
use packs::mask_of;
use paths::Job;
use table::Accepted;

// The first written letters of a rule and their masks, and the place of the last of them that is fresh.
#[derive(Clone, Copy)]
pub struct Word {
    pub letters: [u8; WRITTEN_PLACES],
    pub masks: [u32; WRITTEN_PLACES],
    pub last: usize,
}

// The round as a record holds it. A later one adds no record that the log has room for.
fn label(number: usize) -> u16
    ensures { number ≤ 65535 → result ≡ number }
{
    number.min(65535) as u16
}

// The place j of letter a, if that is one of the fresh letters, else `last`.
fn last_fresh(fresh: u32, a: usize, j: usize, last: usize) -> usize
    requires { a < 32 }
    ensures { result ≡ cond (has_letter fresh a) j last }
{
    if (fresh >> a) % 2 == 1 { j } else { last }
}

// The word with letter j of rule k.
fn read_letter(table: &Accepted, fresh: u32, k: usize, j: usize, mut word: Word) -> Word
    requires { (k < table.now.counts.rules) × (j < length (rule_in table.now.bytes.now k).written) × WordOf table.now.bytes.now fresh k j word }
    ensures { WordOf table.now.bytes.now fresh k (j + 1) result }
{
    let a = table.written_letter(k, j);
    word.letters[j] = a;
    word.masks[j] = mask_of(table.letter_bits(usize::from(a)));
    word.last = last_fresh(fresh, usize::from(a), j, word.last);
    word
}

// All of them.
fn word_of(table: &Accepted, fresh: u32, k: usize, count: usize) -> Word
    requires { (k < table.now.counts.rules) × (count ≡ length (rule_in table.now.bytes.now k).written) }
    ensures { WordOf table.now.bytes.now fresh k count result }
{
    let mut word = Word {
        letters: [0; WRITTEN_PLACES],
        masks: [0; WRITTEN_PLACES],
        last: 0,
    };
    for j in 0..count {
        word = read_letter(table, fresh, k, j, word);
    }
    word
}

// The job of rule k, which has the head; `held` tells whether a record has it too.
pub fn job_of(table: &Accepted, round: Round, head: Head, k: usize, held: bool) -> Job
    requires { (k < table.now.counts.rules) × HeadOf table.now.bytes.now k head }
    ensures { JobOf table.now.bytes.now round k held result }
{
    let count = table.written_count(k);
    let Word {
        letters,
        masks,
        last,
    } = word_of(table, round.fresh, k, count);
    Job {
        letter: head.letter,
        mask: mask_of(head.bits),
        before: head.before,
        rule: k as u16,
        round: label(round.number),
        count,
        letters,
        masks,
        last,
        held,
        lo: round.lo,
        base: round.base,
        n: round.n,
    }
}
