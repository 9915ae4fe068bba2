// Reading a table: document 01, "Table bytes" and refusals 1 to 9, item by item in their order.
#![tactic(auto)]

mod checks;
mod items;

ghost use Rattle.std.specs.Prelude.{◌≡◌};
ghost use Rattle.model.specs.Tables as Tables;
ghost use Rattle.table.specs.Places.{items_before, Passed};
ghost use Rattle.table.specs.Reading.{parsed};
ghost use Rattle.reading.specs.Marks.{Marked, ItemStepped};

use crate::items::{FILTER, advance, check_item};
use model::{CUT, LEFTOVER, Refusal};
use std::ops::ControlFlow;
use table::{Cursor, Kind, Table};

// The item at the cursor: the cursor behind it, or the end of the reading.
fn next_item(
    bytes: &[u8],
    seen: &mut [u8],
    c: Cursor,
) -> ControlFlow<Result<Table, Refusal>, Cursor>
    requires { Passed bytes.now c × Marked (items_before bytes.now c) seen.old }
    ensures { ItemStepped bytes.now c result seen.new }
{
    let at = c.at;
    if bytes.len() <= at {
        return ControlFlow::Break(Err(Refusal {
            number: CUT,
            place: at,
        }));
    }
    let kind = match check_item(bytes, seen, c, bytes[at]) {
        Ok(kind) => kind,
        Err(number) => return ControlFlow::Break(Err(Refusal { number, place: at })),
    };
    if kind != Kind::End {
        return ControlFlow::Continue(advance(c, kind, at + 1 + kind.body_length()));
    }
    if at + 1 < bytes.len() {
        return ControlFlow::Break(Err(Refusal {
            number: LEFTOVER,
            place: at + 1,
        }));
    }
    ControlFlow::Break(Ok(c.table))
}

// Reads a table: its counts, or the first refusal of 1 to 9 with its place.
pub fn read(bytes: &[u8]) -> Result<Table, Refusal>
    ensures { result ≡ parsed (Tables.read bytes.now) }
{
    let mut c = Cursor {
        at: 0,
        last: None,
        starts: 0,
        table: Table::empty(),
    };
    let mut seen = [0u8; FILTER];
    loop {
        match next_item(bytes, &mut seen, c) {
            ControlFlow::Continue(next) => c = next,
            ControlFlow::Break(parsed) => return parsed,
        }
    }
}
