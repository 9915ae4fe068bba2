// The desk for C and Rust: its owner holds it and lends it by a pointer. Each call that changes it answers with the number of the refusal, 0 if there is none; a
// fire tells besides who took part.
ghost use Rattle.std.specs.Prelude.{◌≡◌};
ghost use Rattle.model.specs.Calls.{refused_by};
ghost use Rattle.desk_model.specs.Desks.{saves, returns, forgets};
ghost use Rattle.desk.specs.Promises.{Good, counts_of, shown, sight_of};
ghost use Rattle.exports.specs.DeskCalls.{DeskAnswers, DeskFires, DeskOpens};

use desk::{Counts, Desk, Sight, no_desk};
use desk_model::PILE;
use model::Refusal;
use reading::read;
use table::{Accepted, Table};

// What opening gives: a desk, or the number and the place of the refusal; then the desk is none. C has no Result.
#[repr(C)]
#[derive(Clone, Copy)]
pub struct Opening {
    pub desk: Desk,
    pub number: u8,
    pub place: usize,
}

// What firing gives: the number of the refusal, 0 if there is none, and the processes of the rule's letter as bits, 0 if it is refused.
#[repr(C)]
#[derive(Clone, Copy)]
pub struct Fire {
    pub number: u8,
    pub processes: u8,
}

// The number of a refusal, 0 if there is none.
fn number_of<T: Copy>(called: Result<T, Refusal>) -> u8
    ensures { result ≡ refused_by called }
{
    match called {
        Ok(_) => 0,
        Err(refusal) => refusal.number,
    }
}

// Opens a desk on the table. Refused by 1 to 9. By what `Desk::open` does and not by it: moved out of a Result, the desk takes
// 26,440 bytes of the stack.
#[unsafe(no_mangle)]
pub extern "C" fn roskavel_desk_open(table: &[u8]) -> Opening
    ensures { DeskOpens table.now result }
{
    let counts = match read(table) {
        Ok(counts) => counts,
        Err(refusal) => {
            return Opening {
                desk: no_desk(),
                number: refusal.number,
                place: refusal.place,
            };
        }
    };
    let accepted = Accepted {
        bytes: table,
        counts,
    };
    let mut bytes = [0; Table::LONGEST];
    let mut pile = [0; PILE];
    Opening {
        desk: Desk::set_up(&accepted, &mut bytes, &mut pile),
        number: 0,
        place: 0,
    }
}

// Fires a rule, and tells the processes of its letter. Refused by 13, 12 and 14.
#[unsafe(no_mangle)]
pub extern "C" fn roskavel_desk_fire(desk: &mut Desk, rule: u16) -> Fire
    requires { Good desk.old }
    ensures { DeskFires rule desk.old result desk.new }
{
    let fired = desk.fire(rule);
    let number = number_of(fired);
    let processes = fired.unwrap_or(0);
    Fire { number, processes }
}

// Saves where the desk stands under a name. Refused by 18.
#[unsafe(no_mangle)]
pub extern "C" fn roskavel_desk_save(desk: &mut Desk, name: u8) -> u8
    requires { Good desk.old }
    ensures { DeskAnswers (saves name) desk.old result desk.new }
{
    number_of(desk.save(name))
}

// Returns to what is saved under a name. Refused by 18 and 17.
#[unsafe(no_mangle)]
pub extern "C" fn roskavel_desk_return(desk: &mut Desk, name: u8) -> u8
    requires { Good desk.old }
    ensures { DeskAnswers (returns name) desk.old result desk.new }
{
    number_of(desk.return_to(name))
}

// Forgets a name. Refused by 18 and 17.
#[unsafe(no_mangle)]
pub extern "C" fn roskavel_desk_forget(desk: &mut Desk, name: u8) -> u8
    requires { Good desk.old }
    ensures { DeskAnswers (forgets name) desk.old result desk.new }
{
    number_of(desk.forget(name))
}

// Looks at where the desk stands.
#[unsafe(no_mangle)]
pub extern "C" fn roskavel_desk_look(desk: &Desk) -> Sight
    requires { Good desk.now }
    ensures { result ≡ sight_of (shown desk.now).here }
{
    desk.look()
}

// Tells who took part, and how often, since the desk was opened or last returned.
#[unsafe(no_mangle)]
pub extern "C" fn roskavel_desk_count(desk: &Desk) -> Counts
    requires { Good desk.now }
    ensures { result ≡ counts_of (shown desk.now) }
{
    desk.counts()
}
