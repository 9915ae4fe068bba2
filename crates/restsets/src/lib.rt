// Sets of states: for a rest of the start word those from which it is accepted, made from the set of the next rest by the records of its first letter. Where
// the sets stand in the scratch is the caller's matter.
#![tactic(auto)]

pub mod groups;
pub mod sets;

ghost use Rattle.table.specs.Reading.{Holds};
ghost use Rattle.std.specs.Prelude.{◌+◌, ◌≤◌, length};
ghost use Rattle.leaders.specs.Leaders.{Linked};
ghost use Rattle.scratch.specs.Regions.{links_end};
ghost use Rattle.restsets.specs.Filling.{LettersIn, WordChained};

use leaders::chain_leaders;
use rests::letter_at;
use table::Accepted;

// What is gone through for a letter: its processes as a mask, and the states of the other processes: so many of process 0, so many of process 1, and those
// of processes 2 and 3 as bits.
#[derive(Clone, Copy)]
pub struct Frame {
    pub mask: u32,
    pub rows: usize,
    pub words: usize,
    pub rest: u64,
}

// The letters of the start word as bits, of 32.
fn word_letters(table: &Accepted) -> u32
    ensures { LettersIn table.now.bytes.now table.now.counts.pile result }
{
    let mut letters: u32 = 0;
    for i in 0..table.counts.pile {
        let a = letter_at(table, i);
        letters = letters | (1 << (a.number % 32));
    }
    letters
}

// Chains the leaders of the start word's letters, which the sets are made from.
pub fn chain_word(table: &Accepted, log: &[u8], scratch: &mut [u8], n: usize, count: usize)
    requires { Linked log.now count n scratch.old × (links_end n ≤ length scratch.old) }
    ensures { WordChained table.now.bytes.now table.now.counts log.now count n scratch.old scratch.new }
{
    let letters = word_letters(table);
    chain_leaders(log, scratch, n, count, letters);
}
