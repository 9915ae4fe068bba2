// Sets of state numbers in lent bytes, 64 numbers at a time.
#![tactic(auto)]

ghost use Rattle.std.specs.Prelude.{◌≡◌, cond, ◌+◌, ◌*◌, ◌/◌, ◌^◌, ◌<◌, ◌≤◌, length};
ghost use Rattle.model.specs.Records.{number_at};
ghost use Rattle.numbers.specs.NumberBytes.{with_number};
ghost use Rattle.wordsets.specs.WordSets.{word_sum, RestBits, SetsApart, RowAdded, BlockFits, RecordAdded};

use numbers::{eight_at, put_eight};

// Adds to the word at `to` what the word at `from` has, of the numbers in rest, and gives the word, shifted back.
#[tactic(auto, unfolding(crate::specs::WordSets::word_sum))]
fn add_word(s: &mut [u8], from: usize, to: usize, after: usize, before: usize, rest: u64) -> u64
    requires { (from + 8 ≤ length s.old) × (to + 8 ≤ length s.old) × (after < 64) × (before < 64) }
    ensures { (s.new ≡ with_number 8 s.old to (word_sum (number_at 8 s.old from) (number_at 8 s.old to) after before rest)) × (result ≡ word_sum (number_at 8 s.old from) (number_at 8 s.old to) after before rest / 2 ^ before) }
{
    let found = (eight_at(s, from) >> after) & rest;
    let word = eight_at(s, to) | (found << before);
    put_eight(s, to, word);
    word >> before
}

// Adds to the set at `to` the numbers with the own part x whose likes with the own part y are in the set at `from`: those in the words from low on
// and below high behind the word of x. Gives the bits of rest at which each of these now has its number.
fn add_row(
    s: &mut [u8],
    from: usize,
    to: usize,
    y: usize,
    x: usize,
    rest: u64,
    low: usize,
    high: usize,
) -> u64
    requires { SetsApart s.old from to × (low ≤ high) × (y / 64 + high ≤ 64) × (x / 64 + high ≤ 64) }
    ensures { RowAdded from to y x rest low high s.old s.new result }
{
    let mut common = rest;
    for w in low..high {
        let word = add_word(
            s,
            from + 8 * (y / 64 + w),
            to + 8 * (x / 64 + w),
            y % 64,
            x % 64,
            rest,
        );
        common &= word;
    }
    common
}

// Adds to the set at `to` all that one record gives: the numbers with the own part x whose likes with the own part y are in the set at `from`. The
// other processes' states: those below rows of process 0, below words of process 1, and as the bits of rest those of processes 2 and 3. Of a process
// that the record has a part in it is 0 alone. Gives the bits of rest at which every word now has its number.
pub fn add_record(
    s: &mut [u8],
    from: usize,
    to: usize,
    y: usize,
    x: usize,
    rest: u64,
    rows: usize,
    words: usize,
) -> u64
    requires { SetsApart s.old from to × BlockFits y x rows words }
    ensures { RecordAdded from to y x rest rows words s.old s.new result }
{
    let mut common = rest;
    for h in 0..rows {
        common &= add_row(s, from, to, y, x, rest, 8 * h, 8 * h + words);
    }
    common
}

// The bits of rest for a record that has a part in process 2, or not, and in process 3, or not: 0 alone, else all eight states.
pub fn rest_bits(second: bool, third: bool) -> u64
    ensures { RestBits result (cond second 1 8) (cond third 1 8) }
{
    match (second, third) {
        (true, true) => 1,
        (true, false) => 0xff,
        (false, true) => 0x0101_0101_0101_0101,
        (false, false) => u64::MAX,
    }
}
