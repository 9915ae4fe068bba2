// The automaton that is saturated: that of an accepted table, copied where Lemma 10 asks for it.
ghost use Rattle.copies.specs.CopyingOf.{CopyingOf};

use crate::Copying;
use table::Accepted;

#[derive(Clone, Copy)]
pub struct Automaton<'a> {
    pub table: Accepted<'a>,
    pub copying: Copying,
    pub ghost copied: { CopyingOf table.bytes.now table.counts copying },
}
