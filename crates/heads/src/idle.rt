// Rules that a round looks at in vain, as their first written letter tells.
ghost use Rattle.std.specs.Prelude.{◌≡◌, cond, true, false, [], ◌-◌, ◌<◌, ◌≤◌, length};
ghost use Rattle.states.specs.StateSets.{first_from};
ghost use Rattle.scratch.specs.Regions.{rings_at};
ghost use Rattle.rings.specs.Rings.{Freshened, RingRoom, Ringed, record_reads};
ghost use Rattle.table.specs.Reading.{rule_in};
ghost use Rattle.heads.specs.Rounds.{InRound, rule_offers};

use crate::Round;
use packs::{mask_of, pack, restricted};
use rings::Rings;
use scratch::RINGS;
use table::Accepted;

// The first record that reads the letter with the states g before, or base: of the last round where no letter follows, else of any.
fn first_reader(log: &[u8], scratch: &[u8], round: Round, alone: bool, letter: u8, g: u32) -> usize
    requires { RingRoom log.now round.base round.n rings_at scratch.now × Ringed log.now round.base round.n rings_at scratch.now × Freshened log.now round.lo round.base round.n rings_at scratch.now × (round.lo ≤ round.base) }
    ensures { result ≡ first_from (record_reads log.now letter g) (cond alone round.lo 0) (round.base - cond alone round.lo 0) }
{
    let rings = Rings::new(log, scratch, RINGS, round.n, round.base);
    if alone {
        rings.first_fresh(round.lo, letter, g)
    } else {
        rings.first_match(letter, g)
    }
}

// Whether rule k adds nothing: no record reads its first letter from its states after, none of the last round where it writes one letter. A rule that
// writes none adds its record in the first round, and that round goes through all rules.
pub fn is_idle(table: &Accepted, log: &[u8], scratch: &[u8], round: Round, k: usize) -> bool
    requires { InRound table.now.bytes.now table.now.counts round log.now scratch.now × (k < table.now.counts.rules) }
    ensures { (result ≡ true → rule_offers table.now.bytes.now round k ≡ []) × (result ≡ false → length (rule_in table.now.bytes.now k).written ≡ 0 → round.number ≡ 1) }
{
    if round.number == 1 {
        return false;
    }
    let width = table.written_count(k);
    if width == 0 {
        return true;
    }
    let a = table.written_letter(k, 0);
    let mask = mask_of(table.letter_bits(usize::from(a)));
    let g = restricted(mask, pack(table.rule_after(k)));
    let r = first_reader(log, scratch, round, width == 1, a, g);
    round.base <= r
}
