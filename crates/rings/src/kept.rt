// Records in their rings, to be looked up there.
ghost use Rattle.rings.specs.Rings.{RingRoom, Ringed};
ghost use Rattle.rings.specs.RingProps.{ringed_prop};

use crate::{NO_LINK, bucket, link_at, matches};

// The records of a log below `base` in their rings, which stand in the scratch from `at` on, with room for n records.
#[derive(Clone, Copy)]
pub struct Rings<'a> {
    pub log: &'a [u8],
    pub scratch: &'a [u8],
    pub at: usize,
    pub n: usize,
    pub base: usize,
    pub ghost room: { RingRoom log.now base n at scratch.now },
    pub ghost ringed: { Ringed log.now base n at scratch.now } by { ringed_prop log.now base n at scratch.now room },
}

impl<'a> Rings<'a> {
    ghost use Rattle.std.specs.Prelude.{◌≡◌};

    pub fn new(log: &'a [u8], scratch: &'a [u8], at: usize, n: usize, base: usize) -> Self
        requires { RingRoom log.now base n at scratch.now × Ringed log.now base n at scratch.now }
        ensures { (result.log.now ≡ log.now) × (result.scratch.now ≡ scratch.now) × (result.at ≡ at) × (result.n ≡ n) × (result.base ≡ base) }
    {
        Rings {
            log,
            scratch,
            at,
            n,
            base,
        }
    }
}

impl Rings<'_> {
    ghost use Rattle.std.specs.Prelude.{◌≡◌, true, ◌+◌, ◌-◌, ◌<◌, ◌≤◌};
    ghost use Rattle.states.specs.StateSets.{first_from};
    ghost use Rattle.rings.specs.Rings.{bucket_of, record_bucket, record_reads, Freshened};

    // The first record of a ring from the record `start` on that reads the letter with the states g before, or base. A link that is not above its
    // record ends the walk.
    fn follow(&self, start: usize, letter: u8, g: u32) -> usize
        requires { (start < self.now.base) × (record_bucket self.now.log.now self.now.n start ≡ bucket_of self.now.n letter g) }
        ensures { result ≡ first_from (record_reads self.now.log.now letter g) start (self.now.base - start) }
    {
        let mut r = start;
        while !matches(self.log, r, letter, g) {
            let next = link_at(self.scratch, self.at, self.n + r);
            if next <= r {
                return self.base;
            }
            r = next;
        }
        r
    }

    // The least of the records that reads the letter with the states g before, or base; no Option, since walks end at a limit that base is not below.
    pub fn first_match(&self, letter: u8, g: u32) -> usize
        ensures { result ≡ first_from (record_reads self.now.log.now letter g) 0 self.now.base }
    {
        if self.base == 0 {
            return self.base;
        }
        let t = link_at(self.scratch, self.at, bucket(self.n, letter, g));
        if t == NO_LINK {
            return self.base;
        }
        let start = link_at(self.scratch, self.at, self.n + t);
        self.follow(start, letter, g)
    }

    // The least one after the record r, which reads them too, or base.
    pub fn next_match(&self, r: usize, letter: u8, g: u32) -> usize
        requires { (r < self.now.base) × (record_reads self.now.log.now letter g r ≡ true) }
        ensures { result ≡ first_from (record_reads self.now.log.now letter g) (r + 1) (self.now.base - (r + 1)) }
    {
        let start = link_at(self.scratch, self.at, self.n + r);
        if start <= r {
            return self.base;
        }
        self.follow(start, letter, g)
    }

    // The least one from the record lo on, or base, where the rings know each bucket's first record from there on.
    pub fn first_fresh(&self, lo: usize, letter: u8, g: u32) -> usize
        requires { Freshened self.now.log.now lo self.now.base self.now.n self.now.at self.now.scratch.now × (lo ≤ self.now.base) }
        ensures { result ≡ first_from (record_reads self.now.log.now letter g) lo (self.now.base - lo) }
    {
        if self.base == 0 {
            return self.base;
        }
        let h = bucket(self.n, letter, g);
        let t = link_at(self.scratch, self.at, h);
        if t == NO_LINK || t < lo {
            return self.base;
        }
        let start = link_at(self.scratch, self.at, 2 * self.n + h);
        self.follow(start, letter, g)
    }
}
