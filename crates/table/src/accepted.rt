// An accepted table: its bytes, which stay the caller's, and the counts by which its parts are found there.
ghost use Rattle.table.specs.Reading.{Holds};

use crate::Table;

#[derive(Clone, Copy)]
pub struct Accepted<'a> {
    pub bytes: &'a [u8],
    pub counts: Table,
    pub ghost holds: { Holds bytes.now counts },
}
