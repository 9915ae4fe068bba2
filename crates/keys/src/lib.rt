// An index of the log's records in scratch by their keys: letter, states before, states after. There are n buckets, each a list of record numbers from
// its greatest down. The links are numbers of 16 bits from the offset `at` on: n first records, and n next links. A record is pushed in front of its
// bucket's list; nothing is linked anew.
#![tactic(auto)]

ghost use Rattle.std.specs.Prelude.{◌≡◌, ◌+◌, ◌*◌, ◌<◌, ◌≤◌, length};
ghost use Rattle.states.specs.StateNumbers.{state_count};
ghost use Rattle.records.specs.Entries.{HasRecord};
ghost use Rattle.rings.specs.Rings.{no_link, OutsideSame};
ghost use Rattle.keys.specs.Keys.{key_bucket_of, key_bucket_at, has_key, held_below, KeyRoom, Indexed, pushed};

use packs::{after_at, before_at, number};
use records::letter_at;
use rings::{MIXER, NO_LINK, link_at, matches, put_link, scaled, unlink};

const END_MIXER: u64 = 506952111;

// The bucket of a letter, the states before and the number x of the states after.
#[tactic(auto, unfolding(crate::specs::Keys::key_bucket_of))]
fn bucket(n: usize, letter: u8, g: u32, x: usize) -> usize
    requires { (0 < n) × (n ≤ no_link) × (x < state_count) }
    ensures { (result ≡ key_bucket_of n letter g x) × (result < n) }
{
    scaled(
        n,
        (u64::from(g) + 8 * u64::from(letter)) * MIXER + (x as u64) * END_MIXER,
    )
}

#[tactic(auto, unfolding(crate::specs::Keys::key_bucket_at))]
fn record_bucket(log: &[u8], n: usize, r: usize) -> usize
    requires { (0 < n) × (n ≤ no_link) × HasRecord log.now r }
    ensures { (result ≡ key_bucket_at log.now n r) × (result < n) }
{
    bucket(
        n,
        letter_at(log, r),
        before_at(log, r),
        number(after_at(log, r)),
    )
}

// No record is in the index.
pub fn clear(log: &[u8], scratch: &mut [u8], at: usize, n: usize)
    requires { at + 4 * n ≤ length scratch.old }
    ensures { OutsideSame (4 * n) at scratch.old scratch.new × Indexed log.now 0 n at scratch.new }
{
    unlink(scratch, at, n);
}

// Puts record r in front of its bucket.
#[tactic(auto, unfolding(crate::specs::Keys::pushed))]
fn push(log: &[u8], scratch: &mut [u8], at: usize, n: usize, r: usize)
    requires { KeyRoom log.now (r + 1) n at scratch.old }
    ensures { scratch.new ≡ pushed log.now n at scratch.old r }
{
    let h = record_bucket(log, n, r);
    let first = link_at(scratch, at, h);
    put_link(scratch, at, n + r, first);
    put_link(scratch, at, h, r);
}

// Adds the records from `from` on and below `to` to the index of those below `from`.
pub fn append(log: &[u8], scratch: &mut [u8], at: usize, n: usize, from: usize, to: usize)
    requires { (from ≤ to) × KeyRoom log.now to n at scratch.old × Indexed log.now from n at scratch.old }
    ensures { OutsideSame (4 * n) at scratch.old scratch.new × Indexed log.now to n at scratch.new }
{
    for r in from..to {
        push(log, scratch, at, n, r);
    }
}

// Record r reads the letter with the states g before and has the end x.
fn has_key(log: &[u8], r: usize, letter: u8, g: u32, x: usize) -> bool
    requires { HasRecord log.now r }
    ensures { result ≡ has_key log.now letter g x r }
{
    matches(log, r, letter, g) && x == number(after_at(log, r))
}

// Some record below base reads the letter with the states g before and has the end x.
pub fn holds(
    log: &[u8],
    scratch: &[u8],
    at: usize,
    n: usize,
    base: usize,
    letter: u8,
    g: u32,
    x: usize,
) -> bool
    requires { KeyRoom log.now base n at scratch.now × Indexed log.now base n at scratch.now × (x < state_count) }
    ensures { result ≡ held_below log.now letter g base x }
{
    if base == 0 {
        return false;
    }
    let mut r = link_at(scratch, at, bucket(n, letter, g, x));
    while r != NO_LINK {
        if has_key(log, r, letter, g, x) {
            return true;
        }
        r = link_at(scratch, at, n + r);
    }
    false
}
