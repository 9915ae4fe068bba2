// The bytes of a table, put together and changed.
ghost use Rattle.std.specs.Prelude.{◌≤◌, length};

use crate::text::get;

const MOST: usize = 65535;

// Stores the low byte of a number where there is a place for it, and gives the next place.
fn put(out: &mut [u8], at: usize, n: usize) -> usize
    ensures { result ≤ length out.new }
{
    if at < out.len() {
        out[at] = (n % 256) as u8;
        return at + 1;
    }
    out.len()
}

// An item.
pub(crate) fn append(out: &mut [u8], end: usize, item: &[usize]) -> usize
    requires { end ≤ length out.old }
    ensures { result ≤ length out.new }
{
    let mut at = end;
    for j in 0..item.len() {
        at = put(out, at, item[j]);
    }
    at
}

// ---- more items
// Whether a place of an item is named behind the first three numbers of `more`.
fn is_named(numbers: &[usize], place: usize) -> bool {
    for i in 3..numbers.len() {
        if numbers[i] == place {
            return true;
        }
    }
    false
}

pub(crate) fn one_if(same: bool) -> usize
    ensures { result ≤ 1 }
{
    if same {
        return 1;
    }
    0
}

// The byte that stands `back` bytes earlier, so much more.
fn repeat_byte(out: &mut [u8], at: usize, back: usize, more: usize) -> usize
    requires { more ≤ 1 }
    ensures { result ≤ length out.new }
{
    if at < back {
        return 0;
    }
    if at < out.len() {
        let x = usize::from(out[at - back]);
        return put(out, at, x + more);
    }
    out.len()
}

// So many bytes, each as the one `back` bytes earlier, and one more at the named places of an item of `size` bytes.
fn repeat_bytes(
    out: &mut [u8],
    end: usize,
    numbers: &[usize],
    count: usize,
    back: usize,
    size: usize,
) -> usize
    requires { (end ≤ length out.old) × (1 ≤ size) }
    ensures { result ≤ length out.new }
{
    let mut at = end;
    for i in 0..count {
        at = repeat_byte(out, at, back, one_if(is_named(numbers, i % size)));
    }
    at
}

// Of numbers up to that.
fn product(a: usize, b: usize) -> usize {
    a.min(MOST) * b.min(MOST)
}

// So many times the last so many items of so many bytes, each time with one more at the named places of each item.
pub(crate) fn append_more(out: &mut [u8], end: usize, numbers: &[usize]) -> usize
    requires { end ≤ length out.old }
    ensures { result ≤ length out.new }
{
    let size = get(numbers, 2);
    if size == 0 {
        return end;
    }
    let back = product(get(numbers, 1), size);
    repeat_bytes(
        out,
        end,
        numbers,
        product(get(numbers, 0), back),
        back,
        size,
    )
}

// ---- changes
// The list has a place and a value for each change.
pub(crate) fn change_all(out: &mut [u8], list: &[usize]) {
    for j in 0..list.len() / 2 {
        put(out, list[2 * j], list[2 * j + 1]);
    }
}
