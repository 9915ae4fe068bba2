// The sets of all rests, one behind the other in the scratch.
ghost use Rattle.std.specs.Prelude.{◌≡◌};
ghost use Rattle.restsets.specs.OwnGroups.{last_states};
ghost use Rattle.start.specs.Search.{BegunLed, SetsReady};

use model::Group;
use rests::Scope;
use restsets::sets::fill_set;
use scratch::SET_BYTES;
use table::Accepted;

// Each set from the one behind it; the last is there.
pub fn fill_sets(table: &Accepted, log: &[u8], scratch: &mut [u8], c: Scope, last: Group)
    requires { BegunLed table.now.bytes.now table.now.counts log.now c scratch.old × (last ≡ last_states table.now.bytes.now table.now.counts) }
    ensures { SetsReady table.now.bytes.now table.now.counts log.now c scratch.new }
{
    for i in (0..table.counts.pile).rev() {
        fill_set(
            table,
            log,
            scratch,
            c,
            i,
            SET_BYTES * (i + 1),
            SET_BYTES * i,
            last,
        );
    }
}
