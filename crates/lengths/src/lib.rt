// How long the processes' projections of a word are: those of the start's word, and what each rule of the table makes of them. Document 01: the stations'
// own piles.
#![tactic(auto)]

ghost use Rattle.std.specs.Prelude.{◌≡◌, ◌<◌, length};
ghost use Rattle.model.specs.Groups.{Process, bit, greatest, has, number_of, processes_of};
ghost use Rattle.table.specs.Reading.{BitsOf, rule_in, system_in};
ghost use Rattle.lengths.specs.Projections.{Addable, Added, Change, Countable, Joined, LengthsOf, ChangesNoted, Raised, Rest, AtMost, length_at, noted, rule_ceiling};

use table::{Accepted, Table, has_process};

// A number for each process.
pub type Lengths = [u32; Table::PROCESSES];

// What each rule makes of the lengths.
pub type Changes = [Lengths; Table::RULES];

// ---- letters
// The processes of letter a.
fn bits_of(table: &Accepted, a: u8) -> u8
    requires { a < table.now.counts.letters }
    ensures { BitsOf ((system_in table.now.bytes.now).loc a) result }
{
    table.letter_bits(usize::from(a))
}

// One if process i is in bits, else none.
fn part(bits: u8, i: usize) -> u32
    requires { i < 4 }
    ensures { (p : Process) → number_of p ≡ i → result ≡ bit (has (processes_of bits) p) }
{
    u32::from(has_process(bits, i))
}

// One for each process that is not in bits.
fn rest(bits: u8) -> Lengths
    ensures { Rest (processes_of bits) result }
{
    let mut l = [1; Table::PROCESSES];
    for i in 0..Table::PROCESSES {
        l[i] -= part(bits, i);
    }
    l
}

// One letter more, whose processes are in bits.
fn join(l: &mut Lengths, bits: u8)
    requires { AtMost 64 l.old }
    ensures { Joined l.old (processes_of bits) l.new }
{
    for i in 0..Table::PROCESSES {
        l[i] += part(bits, i);
    }
}

// ---- the start
// The lengths of the start's word.
pub fn start_lengths(table: &Accepted) -> Lengths
    ensures { LengthsOf (system_in table.now.bytes.now).loc (system_in table.now.bytes.now).start.word result }
{
    let mut l = [0; Table::PROCESSES];
    for k in 0..table.counts.pile {
        join(&mut l, bits_of(table, table.pile_letter(k)));
    }
    l
}

// ---- rules
// What rule k makes of the lengths, counted with the rule itself: one at each process without its letter, then the letters that it writes.
fn rule_change(table: &Accepted, k: usize) -> Lengths
    requires { k < table.now.counts.rules }
    ensures { Change (system_in table.now.bytes.now).loc (rule_in table.now.bytes.now k) (length_at result) }
{
    let mut l = rest(bits_of(table, table.rule_letter(k)));
    for j in 0..table.written_count(k) {
        join(&mut l, bits_of(table, table.written_letter(k, j)));
    }
    l
}

// Notes what each rule makes of the lengths. What it leaves at numbers that no rule has is not decided.
pub fn note_changes(table: &Accepted, changes: &mut Changes)
    ensures { ChangesNoted table.now.bytes.now table.now.counts.rules changes.new }
{
    for k in 0..table.counts.rules {
        changes[k] = rule_change(table, k);
    }
}

// Adds what is noted of rule k to the lengths.
pub fn add_change(changes: &Changes, k: usize, l: &mut Lengths)
    requires { (k < rule_ceiling) × Addable changes.now k l.old }
    ensures { Added (noted changes.now k) l.old l.new }
{
    for i in 0..Table::PROCESSES {
        l[i] += changes[k][i];
    }
}

// ---- the greatest
// Of each process the greatest length so far, one rule later: h are those before it, and l the lengths after it, all counted with the rules.
pub fn raise(h: &mut Lengths, l: &Lengths)
    requires { Countable h.old }
    ensures { Raised h.old l.now h.new }
{
    for i in 0..Table::PROCESSES {
        h[i] = l[i].max(h[i] + 1);
    }
}

// The greatest of all.
pub fn highest(l: &Lengths) -> u32
    ensures { result ≡ greatest (length_at l.now) }
{
    l[0].max(l[1]).max(l[2].max(l[3]))
}
