// The rests of the start word, each from one of its letters on: the letters, and the states as the sets of the search number them. What a rest is
// accepted from, and the first accepting path of a rest, stand in specs/Rests.antt.
#![tactic(auto)]

ghost use Rattle.std.specs.Prelude.{◌≡◌, ◌<◌};
ghost use Rattle.table.specs.Reading.{Holds};
ghost use Rattle.rests.specs.Rests.{processes_of_table, zeroed_group, LetterAt};

use model::Group;
use states::groups::chosen;
use table::{Accepted, Table};

// A letter with its processes as bits.
#[derive(Clone, Copy)]
pub struct Letter {
    pub number: u8,
    pub bits: u8,
}

// The records that a search goes by: those below the limit, of the count of records that are in rings for n.
#[derive(Clone, Copy)]
pub struct Scope {
    pub n: usize,
    pub count: usize,
    pub limit: usize,
}

// g with 0 at the processes that the table lacks, as it counts in the numbers of the sets.
pub fn zeroed(t: Table, g: Group) -> Group
    ensures { result ≡ zeroed_group (processes_of_table t) g }
{
    Group {
        s0: chosen(0 < t.processes, g.s0, 0),
        s1: chosen(1 < t.processes, g.s1, 0),
        s2: chosen(2 < t.processes, g.s2, 0),
        s3: chosen(3 < t.processes, g.s3, 0),
    }
}

// Letter i of the start word.
pub fn letter_at(table: &Accepted, i: usize) -> Letter
    requires { i < table.now.counts.pile }
    ensures { LetterAt table.now.bytes.now i result }
{
    let number = table.pile_letter(i);
    let bits = table.letter_bits(usize::from(number));
    Letter { number, bits }
}
