// Rings of the log's records in scratch, by letter and states before: n buckets, each a ring of record numbers in rising order, and behind the
// greatest the least. The links are numbers of 16 bits from the offset `at` on: n tails, n next links, and for each bucket its first record of the
// round that gave it one last. Records are appended round by round; nothing is linked anew.
#![tactic(auto)]

mod kept;

ghost use Rattle.std.specs.Prelude.{◌≡◌, true, ◌+◌, ◌-◌, ◌*◌, ◌<◌, ◌≤◌, length};
ghost use Rattle.states.specs.StateSets.{first_from};
ghost use Rattle.records.specs.Entries.{HasRecord};
ghost use Rattle.rings.specs.Rings.{scaled_to, bucket_of, record_bucket, record_reads, no_link, link_place, link_at, OutsideSame, Unlinked, RingRoom, Ringed, Freshened, with_link, started, lengthened, appended};

pub use kept::Rings;
use numbers::{put_two, two_at};
use packs::before_at;
use records::letter_at;

pub const NO_LINK: usize = 65535;

pub const MIXER: u64 = 820265763;

// A mixed number's bucket, of n.
pub fn scaled(n: usize, mixed: u64) -> usize
    requires { (0 < n) × (n ≤ no_link) }
    ensures { (result ≡ scaled_to n mixed) × (result < n) }
{
    ((mixed / 65536 % 65536) as usize) * n / 65536
}

// The bucket of a letter and the states before.
#[tactic(auto, unfolding(crate::specs::Rings::bucket_of))]
fn bucket(n: usize, letter: u8, g: u32) -> usize
    requires { (0 < n) × (n ≤ no_link) }
    ensures { (result ≡ bucket_of n letter g) × (result < n) }
{
    scaled(n, (u64::from(g) + 8 * u64::from(letter)) * MIXER)
}

#[tactic(auto, unfolding(crate::specs::Rings::record_bucket))]
fn record_bucket(log: &[u8], n: usize, r: usize) -> usize
    requires { (0 < n) × (n ≤ no_link) × HasRecord log.now r }
    ensures { (result ≡ record_bucket log.now n r) × (result < n) }
{
    bucket(n, letter_at(log, r), before_at(log, r))
}

pub fn link_at(scratch: &[u8], at: usize, k: usize) -> usize
    requires { link_place at k + 2 ≤ length scratch.now }
    ensures { (result ≡ link_at scratch.now at k) × (result < 65536) }
{
    usize::from(two_at(scratch, at + 2 * k))
}

pub fn put_link(scratch: &mut [u8], at: usize, k: usize, x: usize)
    requires { (link_place at k + 2 ≤ length scratch.old) × (x ≤ no_link) }
    ensures { scratch.new ≡ with_link scratch.old at k x }
{
    put_two(scratch, at + 2 * k, x as u16);
}

// The first n links are none, two bytes of ones each.
#[tactic(auto, unfolding(model::specs::Records::number_at))]
pub fn unlink(scratch: &mut [u8], at: usize, n: usize)
    requires { at + 2 * n ≤ length scratch.old }
    ensures { Unlinked n at scratch.old scratch.new }
{
    scratch[at..at + 2 * n].fill(0xff);
}

// No record is in a ring.
pub fn clear(log: &[u8], scratch: &mut [u8], at: usize, n: usize)
    requires { at + 6 * n ≤ length scratch.old }
    ensures { OutsideSame (6 * n) at scratch.old scratch.new × Ringed log.now 0 n at scratch.new }
{
    unlink(scratch, at, n);
}

// Record r alone in the bucket h.
#[tactic(auto, unfolding(crate::specs::Rings::started))]
fn start_ring(scratch: &mut [u8], at: usize, n: usize, h: usize, r: usize)
    requires { (h < n) × (r < n) × (n ≤ no_link) × (at + 6 * n ≤ length scratch.old) }
    ensures { scratch.new ≡ started n at scratch.old h r }
{
    put_link(scratch, at, n + r, r);
    put_link(scratch, at, 2 * n + h, r);
    put_link(scratch, at, h, r);
}

// Record r behind the tail t of the bucket h.
#[tactic(auto, unfolding(crate::specs::Rings::lengthened))]
fn lengthen_ring(scratch: &mut [u8], at: usize, n: usize, h: usize, t: usize, r: usize)
    requires { (h < n) × (t < n) × (r < n) × (n ≤ no_link) × (at + 6 * n ≤ length scratch.old) }
    ensures { scratch.new ≡ lengthened n at scratch.old h t r }
{
    let first = link_at(scratch, at, n + t);
    put_link(scratch, at, n + r, first);
    put_link(scratch, at, n + t, r);
    put_link(scratch, at, h, r);
}

// Puts record r into its bucket's ring. It is the bucket's first one from `from` on if the tail is below.
#[tactic(auto, unfolding(crate::specs::Rings::appended))]
fn append_record(log: &[u8], scratch: &mut [u8], at: usize, n: usize, from: usize, r: usize)
    requires { RingRoom log.now (r + 1) n at scratch.old × Ringed log.now r n at scratch.old }
    ensures { scratch.new ≡ appended log.now n at from scratch.old r }
{
    let h = record_bucket(log, n, r);
    let t = link_at(scratch, at, h);
    if t == NO_LINK {
        start_ring(scratch, at, n, h, r);
        return;
    }
    if t < from {
        put_link(scratch, at, 2 * n + h, r);
    }
    lengthen_ring(scratch, at, n, h, t, r);
}

// Appends the records from `from` on and below `to` to the rings of those below `from`.
pub fn append(log: &[u8], scratch: &mut [u8], at: usize, n: usize, from: usize, to: usize)
    requires { (from ≤ to) × RingRoom log.now to n at scratch.old × Ringed log.now from n at scratch.old }
    ensures { OutsideSame (6 * n) at scratch.old scratch.new × Ringed log.now to n at scratch.new × Freshened log.now from to n at scratch.new }
{
    for r in from..to {
        append_record(log, scratch, at, n, from, r);
    }
}

// Record r reads the letter with the states g before.
#[tactic(auto, unfolding(crate::specs::Rings::record_reads))]
pub fn matches(log: &[u8], r: usize, letter: u8, g: u32) -> bool
    requires { HasRecord log.now r }
    ensures { result ≡ record_reads log.now letter g r }
{
    letter_at(log, r) == letter && before_at(log, r) == g
}
