// Lines of text, their first words and their numbers.
ghost use Rattle.std.specs.Prelude.{◌<◌, ◌≤◌, length};

use numbers::two_at;

const LINE_FEED: u8 = 10;

const HASH: u8 = 35;

// A number that has reached it takes no further digit.
const LARGE: usize = 100000000;

// ---- lines
// A line without its line feed and what stands behind a #.
pub(crate) fn content(line: &[u8]) -> &[u8] {
    for i in 0..line.len() {
        if line[i] == LINE_FEED || line[i] == HASH {
            return &line[..i];
        }
    }
    line
}

// Where the line behind the one at a place begins.
pub(crate) fn next_line(text: &[u8], at: usize) -> usize
    requires { at < length text.now }
    ensures { (at < result) × (result ≤ length text.now) }
{
    for i in at..text.len() {
        if text[i] == LINE_FEED {
            return i + 1;
        }
    }
    text.len()
}

// ---- words
// A word is known by its first two letters.
pub const TABLE: u16 = b't' as u16 + 256 * (b'a' as u16);

pub const ITEM: u16 = b'i' as u16 + 256 * (b't' as u16);

pub const MORE: u16 = b'm' as u16 + 256 * (b'o' as u16);

pub const KEEP: u16 = b'k' as u16 + 256 * (b'e' as u16);

pub const PUT: u16 = b'p' as u16 + 256 * (b'u' as u16);

pub const READ: u16 = b'r' as u16 + 256 * (b'e' as u16);

pub const CUTS: u16 = b'c' as u16 + 256 * (b'u' as u16);

pub const ANSWER: u16 = b'a' as u16 + 256 * (b'n' as u16);

pub const RUN: u16 = b'r' as u16 + 256 * (b'u' as u16);

pub const WALK: u16 = b'w' as u16 + 256 * (b'a' as u16);

pub const DESK: u16 = b'd' as u16 + 256 * (b'e' as u16);

// At a desk; any other word there is a forget.
pub const FIRE: u16 = b'f' as u16 + 256 * (b'i' as u16);

pub const SAVE: u16 = b's' as u16 + 256 * (b'a' as u16);

pub const RETURN: u16 = b'r' as u16 + 256 * (b'e' as u16);

pub const LOOK: u16 = b'l' as u16 + 256 * (b'o' as u16);

pub const COUNT: u16 = b'c' as u16 + 256 * (b'o' as u16);

// The word of a line, 0 for a line that is empty.
pub(crate) fn kind_of(line: &[u8]) -> u16 {
    if line.len() < 2 {
        return 0;
    }
    two_at(line, 0)
}

// The bytes of an item are hexadecimal.
pub(crate) fn base_of(kind: u16) -> usize {
    if kind == ITEM {
        return 16;
    }
    10
}

// ---- numbers
// A number that is being read: its value so far, whether it has a digit yet, and how many numbers stand before it.
#[derive(Clone, Copy)]
struct Digits {
    value: usize,
    open: bool,
    count: usize,
}

// The value of a hexadecimal digit, and 16 for any other byte.
fn digit_of(x: u8) -> usize
    ensures { result ≤ 16 }
{
    let n = usize::from(x);
    if n < 48 {
        return 16;
    }
    if n < 58 {
        return n - 48;
    }
    if n < 65 {
        return 16;
    }
    if n < 71 {
        return n - 55;
    }
    16
}

// Sixteen times or ten times.
fn times_base(value: usize, base: usize) -> usize
    requires { value < 100000000 }
    ensures { result ≤ 1600000000 }
{
    if base == 16 {
        return 16 * value;
    }
    10 * value
}

// Stores a number that has a digit.
fn store(numbers: &mut [usize], d: Digits) -> Digits
    requires { d.count ≤ length numbers.old }
    ensures { result.count ≤ length numbers.new }
{
    let k = d.count;
    if d.open {
        if k < numbers.len() {
            numbers[k] = d.value;
            return Digits {
                value: 0,
                open: false,
                count: k + 1,
            };
        }
    }
    d
}

fn take_byte(numbers: &mut [usize], d: Digits, x: u8, base: usize) -> Digits
    requires { d.count ≤ length numbers.old }
    ensures { result.count ≤ length numbers.new }
{
    let digit = digit_of(x);
    if base <= digit {
        return store(numbers, d);
    }
    let value = d.value;
    if LARGE <= value {
        return d;
    }
    Digits {
        value: times_base(value, base) + digit,
        open: true,
        count: d.count,
    }
}

// The numbers of a line, as many as there is room for: what is no digit stands between them.
pub(crate) fn read_numbers(line: &[u8], base: usize, numbers: &mut [usize]) -> usize
    ensures { result ≤ length numbers.new }
{
    let mut d = Digits {
        value: 0,
        open: false,
        count: 0,
    };
    for i in 0..line.len() {
        d = take_byte(numbers, d, line[i], base);
    }
    let last = store(numbers, d);
    last.count
}

// Number i of a line, 0 where there is none.
pub(crate) fn get(numbers: &[usize], i: usize) -> usize {
    if i < numbers.len() {
        return numbers[i];
    }
    0
}
