// The checks 5, 6 and 7 of a body, against the processes and letters that the table has so far.
ghost use Rattle.std.specs.Prelude.{◌≡◌, true, cond, not, ◌&&◌, ◌^◌, ◌≤◌, ◌<◌, eqb, ltb, leb, length, get_or, take, drop};
ghost use Rattle.model.specs.Lists.{all_of};
ghost use Rattle.model.specs.Groups.{processes_of, within_test};
ghost use Rattle.model.specs.Tables.{written_places, body_length, byte_of, group_of, absent, present, loc_of, rule_of, transition_of, group_fits, transition_fits, written_fit, value_fits, cooperates, is_narrow, is_reentry};
ghost use Rattle.table.specs.Kinds.{kind_number};
ghost use Rattle.table.specs.Places.{processes_in, letters_in, bound_in, Heads, Whole};

use model::{Group, WRITTEN_PLACES};
use numbers::group_at;
use table::{Kind, Table, bits_of, bound_of, is_within, leaves_control};

// 2 to the power of a number of processes.
pub fn power_of(processes: usize) -> u8
    requires { processes ≤ 4 }
    ensures { result ≡ 2 ^ processes }
{
    1 << processes
}

// ---- check 5
// The state x of process i: below the bound where the process has a part, else 255.
pub fn state_fits(bytes: &[u8], t: Table, field: usize, i: usize, member: bool, x: u8) -> bool
    requires { Heads bytes.now t × (field < 2) }
    ensures { result ≡ cond member (ltb x (byte_of (get_or (processes_in bytes.now t) i absent) field)) (eqb x 255) }
{
    if member {
        usize::from(x) < bound_of(bytes, t, field, i)
    } else {
        x == 255
    }
}

// A group: states below the bounds at the processes of the bits, 255 at the others.
#[tactic(auto, unfolding(model::specs::Tables::group_fits))]
pub fn group_fits(bytes: &[u8], t: Table, field: usize, bits: u8, g: Group) -> bool
    requires { Heads bytes.now t × (field < 2) }
    ensures { result ≡ group_fits (processes_of bits) (bound_in bytes.now t field) g }
{
    state_fits(bytes, t, field, 0, bits % 2 == 1, g.s0)
        && state_fits(bytes, t, field, 1, bits / 2 % 2 == 1, g.s1)
        && state_fits(bytes, t, field, 2, bits / 4 % 2 == 1, g.s2)
        && state_fits(bytes, t, field, 3, bits / 8 % 2 == 1, g.s3)
}

// The body of a process: 1 to 8 states, of which 1 or more are control states.
pub fn process_fits(body: &[u8]) -> bool
    requires { 2 ≤ length body.now }
    ensures { result ≡ (leb 1 (byte_of body.now 0) && leb (byte_of body.now 0) (byte_of body.now 1) && leb (byte_of body.now 1) 8) }
{
    let controls = body[0];
    let states = body[1];
    1 <= controls && controls <= states && states <= 8
}

// The body of a letter: bits of processes that the table has, at least one.
pub fn letter_fits(t: Table, body: &[u8]) -> bool
    requires { (t.processes ≤ 4) × (1 ≤ length body.now) }
    ensures { result ≡ (leb 1 (byte_of body.now 0) && ltb (byte_of body.now 0) (2 ^ t.processes)) }
{
    let bits = body[0];
    1 <= bits && bits < power_of(t.processes)
}

// The letter of a rule or a transition is one of the table's, and both groups fit it.
#[tactic(auto, using(table::proofs::Bodies::bodies_length), unfolding(model::specs::Tables::transition_fits))]
pub fn transition_fits(bytes: &[u8], t: Table, field: usize, body: &[u8]) -> bool
    requires { Heads bytes.now t × (field < 2) × (9 ≤ length body.now) }
    ensures { result ≡ transition_fits (letters_in bytes.now t) (bound_in bytes.now t field) (transition_of body.now) }
{
    let a = usize::from(body[0]);
    if t.letters <= a {
        return false;
    }
    let bits = bits_of(bytes, t, a);
    group_fits(bytes, t, field, bits, group_at(body, 1))
        && group_fits(bytes, t, field, bits, group_at(body, 5))
}

// Each byte is a letter of the table.
pub fn are_letters(part: &[u8], letters: usize) -> bool
    ensures { result ≡ all_of (λ a. ltb a letters) part.now }
{
    part.iter().all(|a| usize::from(*a) < letters)
}

// Each byte is 255.
pub fn are_spare(part: &[u8]) -> bool
    ensures { result ≡ all_of (λ a. eqb a 255) part.now }
{
    part.iter().all(|a| *a == 255)
}

// The written letters of a rule: as many as its count says, and 255 in the places behind them.
#[tactic(auto, using(buffers::proofs::Parts::part_front, buffers::proofs::Parts::part_behind))]
pub fn written_fit(letters: usize, body: &[u8]) -> bool
    requires { length body.now ≡ body_length 3 }
    ensures { result ≡ (leb (byte_of body.now 9) written_places && all_of (λ a. ltb a letters) (take (byte_of body.now 9) (drop 10 body.now)) && all_of (λ a. eqb a 255) (drop (byte_of body.now 9) (drop 10 body.now))) }
{
    let n = usize::from(body[9]);
    if WRITTEN_PLACES < n {
        return false;
    }
    let end = 10 + n;
    are_letters(&body[10..end], letters) && are_spare(&body[end..])
}

// The body of a rule.
#[tactic(auto, using(table::proofs::Bodies::bodies_length), unfolding(model::specs::Tables::written_fit))]
pub fn rule_fits(bytes: &[u8], t: Table, body: &[u8]) -> bool
    requires { Heads bytes.now t × (length body.now ≡ body_length 3) }
    ensures { result ≡ (transition_fits (letters_in bytes.now t) (bound_in bytes.now t 0) (transition_of body.now) && written_fit (letters_in bytes.now t) (byte_of body.now 9) (drop 10 body.now)) }
{
    transition_fits(bytes, t, 0, body) && written_fit(t.letters, body)
}

// A group of all processes: accepting ones and the start.
#[tactic(auto, using(table::proofs::Bodies::bodies_length, crate::proofs::Values::present_bits))]
pub fn full_group_fits(bytes: &[u8], t: Table, field: usize, body: &[u8]) -> bool
    requires { Heads bytes.now t × (field < 2) × (4 ≤ length body.now) }
    ensures { result ≡ group_fits (present (processes_in bytes.now t)) (bound_in bytes.now t field) (group_of body.now 0) }
{
    let all = power_of(t.processes) - 1;
    group_fits(bytes, t, field, all, group_at(body, 0))
}

// Check 5, by the kind.
#[tactic(auto, using(table::proofs::Bodies::bodies_length), unfolding(model::specs::Tables::value_fits))]
pub fn value_fits(bytes: &[u8], t: Table, kind: Kind, body: &[u8]) -> bool
    requires { Whole bytes.now t (kind_number kind) body.now }
    ensures { result ≡ value_fits (processes_in bytes.now t) (letters_in bytes.now t) (kind_number kind) body.now }
{
    match kind {
        Kind::Process => process_fits(body),
        Kind::Letter => letter_fits(t, body),
        Kind::Rule => rule_fits(bytes, t, body),
        Kind::Transition => transition_fits(bytes, t, 1, body),
        Kind::Accepting => full_group_fits(bytes, t, 1, body),
        Kind::Start => full_group_fits(bytes, t, 0, body),
        Kind::Pile => usize::from(body[0]) < t.letters,
        Kind::End => true,
    }
}

// ---- checks 6 and 7
// Each process of the written letters is one of the set. A `for`: that each letter is one of the table's, which `bits_of` asks, was not proved of a closure in `all`.
pub fn are_within(bytes: &[u8], t: Table, outer: u8, written: &[u8]) -> bool
    requires { Heads bytes.now t × (all_of (λ a. ltb a t.letters) written.now ≡ true) }
    ensures { result ≡ all_of (λ a. within_test (loc_of (letters_in bytes.now t) a) (processes_of outer)) written.now }
{
    for a in written {
        if !is_within(bits_of(bytes, t, usize::from(*a)), outer) {
            return false;
        }
    }
    true
}

// Check 6, of a rule that passed check 5.
#[tactic(auto, using(crate::proofs::Values::whole_size, crate::proofs::Values::whole_rule, buffers::proofs::Parts::part_front), unfolding(model::specs::Tables::cooperates))]
pub fn is_stray(bytes: &[u8], t: Table, kind: Kind, body: &[u8]) -> bool
    requires { Whole bytes.now t (kind_number kind) body.now × (value_fits (processes_in bytes.now t) (letters_in bytes.now t) (kind_number kind) body.now ≡ true) }
    ensures { result ≡ (eqb (kind_number kind) 3 && not (cooperates (loc_of (letters_in bytes.now t)) (rule_of body.now))) }
{
    if kind != Kind::Rule {
        return false;
    }
    let outer = bits_of(bytes, t, usize::from(body[0]));
    let end = 10 + usize::from(body[9]);
    !are_within(bytes, t, outer, &body[10..end])
}

// Every process has at most 4 states.
pub fn is_narrow(bytes: &[u8], t: Table) -> bool
    requires { Heads bytes.now t }
    ensures { result ≡ is_narrow (processes_in bytes.now t) }
{
    (0..t.processes).all(|i| bound_of(bytes, t, 1, i) <= 4)
}

// Check 7, of a transition that passed check 5.
#[tactic(auto, unfolding(model::specs::Tables::is_reentry))]
pub fn is_reentry(bytes: &[u8], t: Table, kind: Kind, body: &[u8]) -> bool
    requires { Whole bytes.now t (kind_number kind) body.now × (value_fits (processes_in bytes.now t) (letters_in bytes.now t) (kind_number kind) body.now ≡ true) }
    ensures { result ≡ is_reentry (processes_in bytes.now t) (letters_in bytes.now t) (kind_number kind) body.now }
{
    if kind != Kind::Transition {
        return false;
    }
    let bits = bits_of(bytes, t, usize::from(body[0]));
    !leaves_control(bytes, t, bits, group_at(body, 5)) && !is_narrow(bytes, t)
}
