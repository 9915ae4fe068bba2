// Firing a rule on a word that stands at the end of its buffer: only what lies above the letter that fires is moved, by one place.
#![tactic(auto)]

ghost use Rattle.std.specs.Prelude.{◌≡◌, ℕ, ◌+◌, ◌≤◌, ◌<◌, length, drop, get_or};
ghost use Rattle.std.proofs.Math.Seq.{paste};
ghost use Rattle.model.specs.Groups.{apart_test, processes_of};
ghost use Rattle.model.specs.Systems as Systems;
ghost use Rattle.table.specs.Reading.{Holds, system_in, rule_in};
ghost use Rattle.firing.specs.Piles.{configuration, Stands, Fires};
ghost use Rattle.firing.specs.Places.{closed, PlaceFound, place, firing_place, rewritten};

use model::Placed;
use states::groups;
use table::Accepted;

// A rule that fired: the configuration after it, and the processes of its letter as bits.
#[derive(Clone, Copy)]
pub struct Fired {
    pub placed: Placed,
    pub processes: u8,
}

// Why a rule is not fired: it does not fire, or the word after it is longer than the buffer.
#[derive(Clone, Copy, Debug, PartialEq, Eq)]
pub enum Stuck {
    Idle,
    Full,
}

// Letter b shares no process with those in bits.
fn is_apart(table: &Accepted, bits: u8, b: u8) -> bool
    requires { (b < table.now.counts.letters) × (bits ≤ 15) }
    ensures { result ≡ apart_test (processes_of bits) ((system_in table.now.bytes.now).loc b) }
{
    let other = table.letter_bits(usize::from(b));
    bits & other == 0
}

// The place of the letter a, if it tops the word from `top` on.
fn find(table: &Accepted, pile: &[u8], top: usize, a: u8) -> Option<usize>
    requires { (a < table.now.counts.letters) × (top ≤ length pile.now) × ((j : ℕ) → top ≤ j → j < length pile.now → get_or pile.now j 0 < table.now.counts.letters) }
    ensures { PlaceFound (length pile.now) (top + place (system_in table.now.bytes.now).loc a (drop top pile.now)) result }
{
    let bits = table.letter_bits(usize::from(a));
    for p in top..pile.len() {
        if pile[p] == a {
            return Some(p);
        }
        if !is_apart(table, bits, pile[p]) {
            return None;
        }
    }
    None
}

// The place of the letter at which rule k fires, if it fires.
fn firing_place(table: &Accepted, k: usize, pile: &[u8], c: Placed) -> Option<usize>
    requires { (k < table.now.counts.rules) × Stands table.now.counts.letters pile.now c }
    ensures { PlaceFound (length pile.now) (firing_place (system_in table.now.bytes.now).loc (rule_in table.now.bytes.now k) pile.now c) result }
{
    if !groups::reads(table.rule_bits(k), c.states, table.rule_before(k)) {
        return None;
    }
    find(table, pile, c.top, table.rule_letter(k))
}

// Moves the letters from `top` up to p one place on, over the letter at p. No copy_within, which is a call of memmove: the header promises that the archive
// imports memcpy and memset alone.
fn close_gap(pile: &mut [u8], top: usize, p: usize)
    requires { (top ≤ p) × (p < length pile.old) }
    ensures { pile.new ≡ closed pile.old top p }
{
    let mut j = p;
    while top < j {
        pile[j] = pile[j - 1];
        j -= 1;
    }
}

// Writes the letters from a place on. No copy_from_slice, since the compiler cannot tell the table's bytes from the pile's, and makes it a call of memmove too.
fn write_letters(pile: &mut [u8], at: usize, written: &[u8])
    requires { at + length written.now ≤ length pile.old }
    ensures { pile.new ≡ paste pile.old at written.now (length written.now) }
{
    for j in 0..written.len() {
        pile[at + j] = written[j];
    }
}

// Takes the letter at p out of the word and puts the letters `written` in front of all that remains: those from `top` up to p move one place on.
fn rewrite(pile: &mut [u8], top: usize, p: usize, written: &[u8])
    requires { (top ≤ p) × (p < length pile.old) × (length written.now ≤ top + 1) }
    ensures { pile.new ≡ rewritten pile.old top p written.now }
{
    close_gap(pile, top, p);
    write_letters(pile, top + 1 - written.len(), written);
}

// Fires rule k. The length of the word after it is known before anything is moved.
pub fn fire(table: &Accepted, k: usize, pile: &mut [u8], c: Placed) -> Result<Fired, Stuck>
    requires { (k < table.now.counts.rules) × Stands table.now.counts.letters pile.old c }
    ensures { Fires ((system_in table.now.bytes.now).loc (rule_in table.now.bytes.now k).letter) (Systems.fire (system_in table.now.bytes.now).loc (rule_in table.now.bytes.now k) (configuration pile.old c)) pile.old pile.new result }
{
    let Some(p) = firing_place(table, k, pile, c) else {
        return Err(Stuck::Idle);
    };
    let written = table.written(k);
    if c.top + 1 < written.len() {
        return Err(Stuck::Full);
    }
    rewrite(pile, c.top, p, written);
    let processes = table.rule_bits(k);
    let placed = Placed {
        states: groups::merged(processes, table.rule_after(k), c.states),
        top: c.top + 1 - written.len(),
    };
    Ok(Fired { placed, processes })
}
