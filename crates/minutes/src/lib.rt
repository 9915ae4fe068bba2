// Minutes before and after the plan's Monday, as signed numbers: request 2.7.
#![tactic(auto)]

ghost use Rattle.std.specs.Prelude.{◌≡◌, ◌<◌, ◌^◌, pos, ◌+ℤ◌};
ghost use Rattle.std.specs.Int.{w64};
ghost use Rattle.std.proofs.Common.{SFits};
ghost use Rattle.plan_model.specs.Hours.{later_of, minute_of_week, start_fits};

use plan_model::WEEK;

// The minutes of a week, as a distance.
const SIGNED_WEEK: i64 = WEEK as i64;

// The first and the last start of a plan.
const FIRST_START: i64 = -1000000;

const LAST_START: i64 = 1000000;

// The minute of the week: the floor remainder by 10,080.
pub fn minute_of_week(t: i64) -> usize
    ensures { result ≡ minute_of_week t }
{
    t.rem_euclid(SIGNED_WEEK) as usize
}

// The minute that is d minutes after t.
pub fn after(t: i64, d: usize) -> i64
    requires { SFits w64 (t +ℤ pos d) × (d < 2 ^ 63) }
    ensures { result ≡ t +ℤ pos d }
{
    t + d as i64
}

// The later of two minutes.
pub fn later_of(a: i64, b: i64) -> i64
    ensures { result ≡ later_of a b }
{
    a.max(b)
}

// The plan's start lies between -1,000,000 and 1,000,000.
#[tactic(auto, unfolding(plan_model::specs::Hours::start_fits))]
pub fn start_fits(start: i64) -> bool
    ensures { result ≡ start_fits start }
{
    (FIRST_START..=LAST_START).contains(&start)
}
