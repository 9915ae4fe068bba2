// The leaders of the log's letters: of each letter and states before the least record. Those of a letter are chained in scratch in rising order by links of
// 16 bits: a first one for each byte that a letter may be, and a next one for each record where the index of keys was, which saturation no longer needs.
#![tactic(auto)]

ghost use Rattle.std.specs.Prelude.{◌≡◌, ◌&&◌, ◌+◌, ◌-◌, ◌*◌, ◌<◌, ◌≤◌, ltb, length};
ghost use Rattle.records.specs.Entries.{HasRecord};
ghost use Rattle.rings.specs.Rings.{no_link, link_at, record_reads};
ghost use Rattle.scratch.specs.Regions.{keys_at, leaders_at, leaders_end};
ghost use Rattle.leaders.specs.Leaders.{Linked, leader_among, LeadersChained, with_leader, with_record};

use packs::before_at;
use records::letter_at;
use rings::{Rings, link_at, matches, put_link, unlink};
use scratch::{LEADERS, RINGS, keys_at};

// The record before r reads the letter with the states g before.
fn is_alike(log: &[u8], r: usize, letter: u8, g: u32) -> bool
    requires { HasRecord log.now r }
    ensures { result ≡ ltb 0 r && record_reads log.now letter g (r - 1) }
{
    r != 0 && matches(log, r - 1, letter, g)
}

// Record r is the least with its letter, one of these, and its states before. Most that are not have one like them right before them.
fn is_leader(log: &[u8], scratch: &[u8], n: usize, count: usize, letters: u32, r: usize) -> bool
    requires { Linked log.now count n scratch.now × (r < count) }
    ensures { result ≡ leader_among log.now letters r }
{
    let letter = letter_at(log, r);
    if (letters >> (letter % 32)) % 2 != 1 {
        return false;
    }
    let g = before_at(log, r);
    if is_alike(log, r, letter, g) {
        return false;
    }
    Rings::new(log, scratch, RINGS, n, count).first_match(letter, g) == r
}

// Puts record r in front of the leaders of a letter.
#[tactic(auto, unfolding(crate::specs::Leaders::with_leader))]
fn push(scratch: &mut [u8], n: usize, letter: u8, r: usize)
    requires { (keys_at n + 2 * n ≤ length scratch.old) × (r < n) × (n ≤ no_link) }
    ensures { scratch.new ≡ with_leader n scratch.old letter r }
{
    let letter = usize::from(letter);
    let first = link_at(scratch, LEADERS, letter);
    put_link(scratch, keys_at(n), r, first);
    put_link(scratch, LEADERS, letter, r);
}

// Puts record r in front of its letter's leaders if it is one, and its letter one of these.
#[tactic(auto, unfolding(crate::specs::Leaders::with_record))]
fn chain(log: &[u8], scratch: &mut [u8], n: usize, count: usize, letters: u32, r: usize)
    requires { Linked log.now count n scratch.old × (r < count) × (keys_at n + 2 * n ≤ length scratch.old) }
    ensures { scratch.new ≡ with_record log.now letters n scratch.old r }
{
    if is_leader(log, scratch, n, count, letters, r) {
        push(scratch, n, letter_at(log, r), r);
    }
}

// Chains the leaders of the letters whose bits, of 32, are in `letters`.
pub fn chain_leaders(log: &[u8], scratch: &mut [u8], n: usize, count: usize, letters: u32)
    requires { Linked log.now count n scratch.old × (keys_at n + 2 * n ≤ length scratch.old) }
    ensures { LeadersChained log.now letters count n scratch.old scratch.new }
{
    unlink(scratch, LEADERS, 256);
    for r in (0..count).rev() {
        chain(log, scratch, n, count, letters, r);
    }
}

// The first leader of a letter, and the one behind leader r; where there is none, no record, as the two bytes of the link say it.
pub fn first_leader(scratch: &[u8], letter: u8) -> usize
    requires { leaders_end ≤ length scratch.now }
    ensures { result ≡ link_at scratch.now leaders_at letter }
{
    link_at(scratch, LEADERS, usize::from(letter))
}

pub fn next_leader(scratch: &[u8], n: usize, r: usize) -> usize
    requires { (keys_at n + 2 * n ≤ length scratch.now) × (r < n) × (n ≤ no_link) }
    ensures { result ≡ link_at scratch.now (keys_at n) r }
{
    link_at(scratch, keys_at(n), r)
}
