// The checks of one item, in their order, and the cursor behind it.
ghost use Rattle.std.specs.Prelude.{◌≡◌, ◌+◌, ◌-◌, ◌*◌, ◌≤◌, ◌<◌, ltb, length, drop, IfOk};
ghost use Rattle.model.specs.Lists.{any_of};
ghost use Rattle.model.specs.Tables.{body_length, same_bytes, is_twin, refusal};
ghost use Rattle.table.specs.Kinds.{kind_number, last_number};
ghost use Rattle.table.specs.Places.{body_at, bodies_at, counts_at, items_before, Modest, advanced, Passed};
ghost use Rattle.table.specs.Reading.{out_of_turn, body_refusal};
ghost use Rattle.reading.specs.Marks.{filter_length, has_twins, mark_of, with_mark, Marked, ItemAt, place_refusal, Checked, ItemChecked};

use crate::checks::{is_reentry, is_stray, value_fits};
use model::{CROWD, CUT, REENTRY, STRAY, TURN, TWIN, VALUE};
use numbers::{eight_at, four_at};
use states::sets::{contains, insert};
use table::{Cursor, Kind, body_at};

// How many bytes the filter of check 8 has.
pub const FILTER: usize = 512;

// ---- the cursor
// How many items of a kind stand before the cursor.
pub fn count_of(c: Cursor, kind: Kind) -> usize
    ensures { result ≡ counts_at c (kind_number kind) }
{
    match kind {
        Kind::Process => c.table.processes,
        Kind::Letter => c.table.letters,
        Kind::Rule => c.table.rules,
        Kind::Transition => c.table.transitions,
        Kind::Accepting => c.table.accepting,
        Kind::Start => c.starts,
        Kind::Pile => c.table.pile,
        Kind::End => 0,
    }
}

// The cursor behind an item of the kind.
#[tactic(auto, unfolding(table::specs::Places::advanced))]
pub fn advance(c: Cursor, kind: Kind, next: usize) -> Cursor
    requires { Modest c.table × (c.starts ≤ 1) }
    ensures { result ≡ advanced c (kind_number kind) next }
{
    let mut after = Cursor {
        at: next,
        last: Some(kind),
        ..c
    };
    match kind {
        Kind::Process => after.table.processes += 1,
        Kind::Letter => after.table.letters += 1,
        Kind::Rule => after.table.rules += 1,
        Kind::Transition => after.table.transitions += 1,
        Kind::Accepting => after.table.accepting += 1,
        Kind::Start => after.starts += 1,
        Kind::Pile => after.table.pile += 1,
        Kind::End => {}
    }
    after
}

// The kind is below the last one.
fn falls(c: Cursor, kind: Kind) -> bool
    ensures { result ≡ ltb (kind_number kind) (last_number c.last) }
{
    Some(kind) < c.last
}

// Check 3: the kind falls, a second start, no process before another kind, or no start before the kinds behind it.
#[tactic(auto, unfolding(table::specs::Reading::out_of_turn))]
pub fn is_out_of_turn(c: Cursor, kind: Kind) -> bool
    ensures { result ≡ out_of_turn c (kind_number kind) }
{
    falls(c, kind)
        || (kind == Kind::Start && 0 < c.starts)
        || (c.table.processes == 0 && Kind::Process < kind)
        || (Kind::Start < kind && c.starts == 0)
}

// ---- check 8
// The body is the end of the item. Its first and its last eight bytes are compared at once, which tells nearly all apart that are not the same.
fn is_end_of(item: &[u8], body: &[u8]) -> bool
    ensures { result ≡ same_bytes body.now (drop (length item.now - length body.now) item.now) }
{
    let size = body.len();
    if 8 <= size && size <= item.len() {
        let at = item.len() - size;
        if eight_at(item, at) != eight_at(body, 0)
            || eight_at(item, item.len() - 8) != eight_at(body, size - 8)
        {
            return false;
        }
    }
    item.ends_with(body)
}

// The body is one of the bodies of the `count` items right before `at`, which are as long.
pub fn is_seen(bytes: &[u8], body: &[u8], count: usize, at: usize) -> bool
    requires { (count * (1 + length body.now) ≤ at) × (at + length body.now < length bytes.now) }
    ensures { result ≡ any_of (same_bytes body.now) (bodies_at bytes.now (length body.now) (at - count * (1 + length body.now)) count) }
{
    let size = 1 + body.len();
    let before = &bytes[at - count * size..at];
    before.chunks_exact(size).any(|item| is_end_of(item, body))
}

// Check 8 asks of this kind.
pub fn has_twins(kind: Kind) -> bool
    ensures { result ≡ has_twins (kind_number kind) }
{
    matches!(kind, Kind::Rule | Kind::Transition | Kind::Accepting)
}

// The mark of a body: equal bodies have equal marks, and others seldom.
#[tactic(auto, unfolding(crate::specs::Marks::mark_of))]
pub fn mark_of(body: &[u8]) -> usize
    requires { 4 ≤ length body.now }
    ensures { (result ≡ mark_of body.now) × (result < 8 * filter_length) }
{
    if body.len() < 8 {
        return four_at(body, 0) as usize % 4021;
    }
    let first = eight_at(body, 0) % 4021;
    let last = eight_at(body, body.len() - 8) % 4001;
    ((first + last) as usize) % (8 * FILTER)
}

// Check 8: the body stands before in kinds 3, 4, 5. It is looked for only where its bit in the filter was set, and the bit is set.
#[tactic(auto, using(crate::proofs::Marks::unmarked, crate::proofs::Twins::seen_of), unfolding(model::specs::Tables::is_twin, crate::specs::Marks::with_mark))]
pub fn is_twin(bytes: &[u8], seen: &mut [u8], c: Cursor, kind: Kind, body: &[u8]) -> bool
    requires { ItemAt bytes.now seen.old c (kind_number kind) body.now }
    ensures { (result ≡ is_twin (items_before bytes.now c) (kind_number kind) body.now) × (seen.new ≡ with_mark seen.old (kind_number kind) body.now) }
{
    if !has_twins(kind) {
        return false;
    }
    let mark = mark_of(body);
    let was_set = contains(seen, mark);
    insert(seen, mark);
    was_set && is_seen(bytes, body, count_of(c, kind), c.at)
}

// ---- one item
// The checks 5 to 8, of an item that is whole.
#[tactic(auto, using(crate::proofs::Marks::refused_with, table::proofs::Cursors::processes_before, table::proofs::Cursors::letters_before), unfolding(table::specs::Reading::body_refusal))]
pub fn check_body(
    bytes: &[u8],
    seen: &mut [u8],
    c: Cursor,
    kind: Kind,
    body: &[u8],
) -> Result<(), u8>
    requires { ItemAt bytes.now seen.old c (kind_number kind) body.now }
    ensures { ItemChecked body_refusal (items_before bytes.now c) (kind_number kind) body.now result seen.old seen.new }
{
    let t = c.table;
    if !value_fits(bytes, t, kind, body) {
        return Err(VALUE);
    }
    if is_stray(bytes, t, kind, body) {
        return Err(STRAY);
    }
    if is_reentry(bytes, t, kind, body) {
        return Err(REENTRY);
    }
    if is_twin(bytes, seen, c, kind, body) {
        return Err(TWIN);
    }
    Ok(())
}

// The checks 3, 4 and 1; `left` is the number of bytes from the item on.
pub fn check_place(c: Cursor, kind: Kind, left: usize) -> Result<(), u8>
    ensures { Checked (place_refusal c (kind_number kind) left) result }
{
    if is_out_of_turn(c, kind) {
        return Err(TURN);
    }
    if kind.ceiling() <= count_of(c, kind) {
        return Err(CROWD);
    }
    if left <= kind.body_length() {
        return Err(CUT);
    }
    Ok(())
}

// The checks of the item at the cursor, in the order 2, 3, 4, 1, 5, 6, 7, 8: the item's kind, or the number of the first that it does not pass.
#[tactic(auto, using(crate::proofs::Marks::refused_on, table::proofs::Steps::early_of), unfolding(model::specs::Tables::refusal))]
pub fn check_item(bytes: &[u8], seen: &mut [u8], c: Cursor, number: u8) -> Result<Kind, u8>
    requires { Passed bytes.now c × (c.at < length bytes.now) × Marked (items_before bytes.now c) seen.old }
    ensures kind { IfOk result (λ kind. kind_number kind ≡ number) }
    ensures checked { ItemChecked refusal (items_before bytes.now c) number (body_at bytes.now (body_length number) c.at) result seen.old seen.new }
{
    let kind = Kind::try_from(number)?;
    check_place(c, kind, bytes.len() - c.at)?;
    check_body(
        bytes,
        seen,
        c,
        kind,
        body_at(bytes, c.at, kind.body_length()),
    )?;
    Ok(kind)
}
