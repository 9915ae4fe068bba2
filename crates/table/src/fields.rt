// The parts of an accepted table, read from the caller's bytes at computed places.
ghost use Rattle.std.specs.Prelude.{◌≡◌, [], ◌∷◌, ◌+◌, ◌*◌, ◌≤◌, ◌<◌, length, get_or, take, drop};
ghost use Rattle.model.specs.Tables.{written_places, absent, body_length, byte_of, group_of};
ghost use Rattle.table.specs.Places.{body_at, processes_in, letters_in, Heads, Modest};
ghost use Rattle.table.specs.Reading.{Holds, system_in, rule_in, transition_in, accepting_in, pile_in, process_at, BitsOf};

use crate::{Accepted, Table};
use model::{Group, WRITTEN_PLACES};
use numbers::group_at;

// The bytes of a rule's body, and those of a whole rule.
pub const RULE_BODY: usize = 10 + WRITTEN_PLACES;

pub const RULE_ITEM: usize = 1 + RULE_BODY;

// The body of the item at a place.
pub fn body_at(bytes: &[u8], at: usize, size: usize) -> &[u8]
    requires { at + 1 + size ≤ length bytes.now }
    ensures { (result.now ≡ body_at bytes.now size at) × (length result.now ≡ size) }
{
    let from = at + 1;
    let to = from + size;
    &bytes[from..to]
}

// The body of item k of a kind: the first one stands at `first`.
fn item_body(bytes: &[u8], first: usize, size: usize, k: usize) -> &[u8]
    requires { first + k * (1 + size) + 1 + size ≤ length bytes.now }
    ensures { (result.now ≡ body_at bytes.now size (first + k * (1 + size))) × (length result.now ≡ size) }
{
    body_at(bytes, first + k * (1 + size), size)
}

// ---- places
// The places of the first letter, rule, transition, accepting group, of the start and of the pile.
pub fn letters_at(t: Table) -> usize
    requires { t.processes ≤ 4 }
    ensures { result ≡ 3 * t.processes }
{
    3 * t.processes
}

pub fn rules_at(t: Table) -> usize
    requires { Modest t }
    ensures { result ≡ 3 * t.processes + 2 * t.letters }
{
    letters_at(t) + 2 * t.letters
}

pub fn transitions_at(t: Table) -> usize
    requires { Modest t }
    ensures { result ≡ 3 * t.processes + 2 * t.letters + (1 + body_length 3) * t.rules }
{
    rules_at(t) + RULE_ITEM * t.rules
}

pub fn accepting_at(t: Table) -> usize
    requires { Modest t }
    ensures { result ≡ 3 * t.processes + 2 * t.letters + (1 + body_length 3) * t.rules + 10 * t.transitions }
{
    transitions_at(t) + 10 * t.transitions
}

pub fn start_at(t: Table) -> usize
    requires { Modest t }
    ensures { result ≡ 3 * t.processes + 2 * t.letters + (1 + body_length 3) * t.rules + 10 * t.transitions + 5 * t.accepting }
{
    accepting_at(t) + 5 * t.accepting
}

pub fn pile_at(t: Table) -> usize
    requires { Modest t }
    ensures { result ≡ 3 * t.processes + 2 * t.letters + (1 + body_length 3) * t.rules + 10 * t.transitions + 5 * t.accepting + 5 }
{
    start_at(t) + 5
}

// The bound of a process's states, of the control states (field 0) or of all (field 1); 256 where the table lacks the process.
pub fn bound_of(bytes: &[u8], t: Table, field: usize, i: usize) -> usize
    requires { Heads bytes.now t × (field < 2) }
    ensures { result ≡ byte_of (get_or (processes_in bytes.now t) i absent) field }
{
    if i < t.processes {
        return usize::from(bytes[3 * i + 1 + field]);
    }
    256
}

// The bits of the processes of letter a.
pub fn bits_of(bytes: &[u8], t: Table, a: usize) -> u8
    requires { Heads bytes.now t × (a < t.letters) }
    ensures { result ≡ byte_of (get_or (letters_in bytes.now t) a (15 ∷ [])) 0 }
{
    bytes[letters_at(t) + 2 * a + 1]
}

impl Accepted<'_> {
    // ---- processes and letters
    // How many states process i has; 256 where the table lacks the process.
    pub fn local_states(&self, i: usize) -> usize
        requires { i < 4 }
        ensures { result ≡ (system_in self.now.bytes.now).states (process_at i) }
    {
        bound_of(self.bytes, self.counts, 1, i)
    }

    // The processes of letter a, as bits.
    pub fn letter_bits(&self, a: usize) -> u8
        requires { a < self.now.counts.letters }
        ensures { BitsOf ((system_in self.now.bytes.now).loc a) result }
    {
        bits_of(self.bytes, self.counts, a)
    }

    // ---- rules
    // The body of rule k.
    pub fn rule_body(&self, k: usize) -> &[u8]
        requires { k < self.now.counts.rules }
        ensures { (byte_of result.now 0 ≡ (rule_in self.now.bytes.now k).letter) × (group_of result.now 1 ≡ (rule_in self.now.bytes.now k).before) × (group_of result.now 5 ≡ (rule_in self.now.bytes.now k).after) × (byte_of result.now 9 ≡ length (rule_in self.now.bytes.now k).written) × (take (byte_of result.now 9) (drop 10 result.now) ≡ (rule_in self.now.bytes.now k).written) × (byte_of result.now 9 ≤ written_places) × (length result.now ≡ body_length 3) }
    {
        item_body(self.bytes, rules_at(self.counts), RULE_BODY, k)
    }

    // Its letter, and its groups before and after.
    pub fn rule_letter(&self, k: usize) -> u8
        requires { k < self.now.counts.rules }
        ensures { result ≡ (rule_in self.now.bytes.now k).letter }
    {
        let body = self.rule_body(k);
        body[0]
    }

    // The processes of the letter of rule k, as bits.
    pub fn rule_bits(&self, k: usize) -> u8
        requires { k < self.now.counts.rules }
        ensures { BitsOf ((system_in self.now.bytes.now).loc (rule_in self.now.bytes.now k).letter) result }
    {
        let a = self.rule_letter(k);
        self.letter_bits(usize::from(a))
    }

    pub fn rule_before(&self, k: usize) -> Group
        requires { k < self.now.counts.rules }
        ensures { result ≡ (rule_in self.now.bytes.now k).before }
    {
        group_at(self.rule_body(k), 1)
    }

    pub fn rule_after(&self, k: usize) -> Group
        requires { k < self.now.counts.rules }
        ensures { result ≡ (rule_in self.now.bytes.now k).after }
    {
        group_at(self.rule_body(k), 5)
    }

    // The letters that rule k writes, top first.
    pub fn written(&self, k: usize) -> &[u8]
        requires { k < self.now.counts.rules }
        ensures { result.now ≡ (rule_in self.now.bytes.now k).written }
    {
        let body = self.rule_body(k);
        let count = usize::from(body[9]);
        &body[10..10 + count]
    }

    // How many letters rule k writes.
    pub fn written_count(&self, k: usize) -> usize
        requires { k < self.now.counts.rules }
        ensures { result ≡ length (rule_in self.now.bytes.now k).written }
    {
        let body = self.rule_body(k);
        usize::from(body[9])
    }

    // Letter j of those that rule k writes, top first.
    pub fn written_letter(&self, k: usize, j: usize) -> u8
        requires { (k < self.now.counts.rules) × (j < length (rule_in self.now.bytes.now k).written) }
        ensures { result ≡ get_or (rule_in self.now.bytes.now k).written j 0 }
    {
        let body = self.rule_body(k);
        body[10 + j]
    }

    // ---- transitions, accepting groups, start
    // The body of transition k.
    pub fn transition_body(&self, k: usize) -> &[u8]
        requires { k < self.now.counts.transitions }
        ensures { (byte_of result.now 0 ≡ (transition_in self.now.bytes.now k).letter) × (group_of result.now 1 ≡ (transition_in self.now.bytes.now k).before) × (group_of result.now 5 ≡ (transition_in self.now.bytes.now k).after) × (length result.now ≡ 9) }
    {
        item_body(self.bytes, transitions_at(self.counts), 9, k)
    }

    // Its letter, and its groups before and after.
    pub fn transition_letter(&self, k: usize) -> u8
        requires { k < self.now.counts.transitions }
        ensures { result ≡ (transition_in self.now.bytes.now k).letter }
    {
        let body = self.transition_body(k);
        body[0]
    }

    pub fn transition_before(&self, k: usize) -> Group
        requires { k < self.now.counts.transitions }
        ensures { result ≡ (transition_in self.now.bytes.now k).before }
    {
        group_at(self.transition_body(k), 1)
    }

    pub fn transition_after(&self, k: usize) -> Group
        requires { k < self.now.counts.transitions }
        ensures { result ≡ (transition_in self.now.bytes.now k).after }
    {
        group_at(self.transition_body(k), 5)
    }

    // Accepting group k.
    pub fn accepting_group(&self, k: usize) -> Group
        requires { k < self.now.counts.accepting }
        ensures { result ≡ accepting_in self.now.bytes.now k }
    {
        group_at(item_body(self.bytes, accepting_at(self.counts), 4, k), 0)
    }

    // The states of the start.
    pub fn start_group(&self) -> Group
        ensures { result ≡ (system_in self.now.bytes.now).start.states }
    {
        group_at(item_body(self.bytes, start_at(self.counts), 4, 0), 0)
    }

    // Letter k of the start's word, top first.
    pub fn pile_letter(&self, k: usize) -> u8
        requires { k < self.now.counts.pile }
        ensures { result ≡ pile_in self.now.bytes.now k }
    {
        let body = item_body(self.bytes, pile_at(self.counts), 1, k);
        body[0]
    }
}
