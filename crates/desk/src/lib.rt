// Requests 2.1 and 2.5, named situations at the desk, and who took part: opened once on a table, changed only by its calls, in place.
#![tactic(auto)]

ghost use Rattle.std.specs.Prelude.{◌≡◌};
ghost use Rattle.desk_model.specs.Desks.{checks, first_stop, fires, saves, returns, forgets, named, stop_or_pass, told_by, told_by_fire};
ghost use Rattle.model.specs.Lists.{is_missing};
ghost use Rattle.desk.specs.Checking.{name_findings};
ghost use Rattle.desk.specs.Promises.{Good, Moves, Opened, Opens, counts_of, no_desk, sight_of, shown};

use buffers::copy;
use desk_model::{BAD_NAME, COUNT_CEILING, EMPTY_NAME, NAMES, PILE};
use model::{Group, Placed, Refusal};
use reading::read;
use steps::{bring_front, place_start, take_step};
use table::{Accepted, Table};

// A name: whether it is held, and what is saved under it, the states, and a word at the end of its buffer. A flag and no Option: the desk is C's plain data.
#[repr(C)]
#[derive(Clone, Copy)]
pub struct Named {
    held: bool,
    placed: Placed,
    pile: [u8; PILE],
}

// The accepted table's bytes and counts, the configuration where the desk stands, the steps that each process took part in, and the named configurations.
// That these fit is a clause, `Good`, and no invariant: C holds a desk in the place of a refused opening too, and that one is not good.
#[repr(C)]
#[derive(Clone, Copy)]
pub struct Desk {
    size: usize,
    table: Table,
    placed: Placed,
    counts: [u64; Table::PROCESSES],
    bytes: [u8; Table::LONGEST],
    pile: [u8; PILE],
    names: [Named; NAMES],
}

// Where a desk stands: the states, and the pile at the front of its buffer, zeros behind it.
#[repr(C)]
#[derive(Clone, Copy)]
pub struct Sight {
    pub states: Group,
    pub length: usize,
    pub pile: [u8; PILE],
}

// For each process the number of steps that it took part in, since the desk was opened or last returned.
#[repr(C)]
#[derive(Clone, Copy)]
pub struct Counts {
    pub steps: [u64; Table::PROCESSES],
}

// The refusal of a call at an open desk: its place is 0.
fn refusal(number: u8) -> Refusal
    ensures { result ≡ record { number = number; place = 0 } }
{
    Refusal { number, place: 0 }
}

// The checks of a name; `empty` where the call asks for one that is held and it is not.
fn check_name(i: usize, empty: bool) -> Result<(), Refusal>
    ensures { result ≡ stop_or_pass (first_stop (checks (name_findings i empty))) }
{
    if NAMES <= i {
        return Err(refusal(BAD_NAME));
    }
    if empty {
        return Err(refusal(EMPTY_NAME));
    }
    Ok(())
}

// What C is given in the place of a desk where there is none.
pub fn no_desk() -> Desk
    ensures { result ≡ no_desk }
{
    let placed = Placed {
        states: Group {
            s0: 0,
            s1: 0,
            s2: 0,
            s3: 0,
        },
        top: 0,
    };
    let free = Named {
        held: false,
        placed,
        pile: [0; PILE],
    };
    Desk {
        size: 0,
        table: Table::empty(),
        placed,
        counts: [0; Table::PROCESSES],
        bytes: [0; Table::LONGEST],
        pile: [0; PILE],
        names: [free; NAMES],
    }
}

impl Desk {
    // Opens a desk on the table: at its start, no name held. There is none if the table is refused.
    pub fn open(table: &[u8]) -> Result<Desk, Refusal>
        ensures { Opens table.now result }
    {
        let counts = read(table)?;
        let accepted = Accepted {
            bytes: table,
            counts,
        };
        let mut bytes = [0; Table::LONGEST];
        let mut pile = [0; PILE];
        Ok(Desk::set_up(&accepted, &mut bytes, &mut pile))
    }

    // A desk on an accepted table. The buffers are the caller's, whatever they hold: of the stack, where the header promises 7,440 bytes, the C call would take
    // 12,680 with ones of this function, and 9,368 with a desk that is set up in place.
    pub fn set_up(table: &Accepted, bytes: &mut [u8; Table::LONGEST], pile: &mut [u8; PILE]) -> Desk
        ensures { Opened table.now.bytes.now result }
    {
        *bytes = [0; Table::LONGEST];
        copy(table.bytes, bytes);
        *pile = [0; PILE];
        let placed = place_start(table, pile);
        let free = Named {
            held: false,
            placed,
            pile: [0; PILE],
        };
        Desk {
            size: table.bytes.len(),
            table: table.counts,
            placed,
            counts: [0; Table::PROCESSES],
            bytes: *bytes,
            pile: *pile,
            names: [free; NAMES],
        }
    }

    // Fires a rule, and tells the processes of its letter. Refused by 13, 12 and 14.
    pub fn fire(&mut self, rule: u16) -> Result<u8, Refusal>
        requires { Good self.old }
        ensures { Moves (fires rule) self.old (told_by_fire result) self.new }
    {
        let table = Accepted {
            bytes: &self.bytes[..self.size],
            counts: self.table,
        };
        match take_step(
            &table,
            usize::from(rule),
            &mut self.pile,
            self.placed,
            &mut self.counts,
            COUNT_CEILING,
        ) {
            Ok(fired) => {
                self.placed = fired.placed;
                Ok(fired.processes)
            }
            Err(number) => Err(refusal(number)),
        }
    }

    // Saves where the desk stands under a name. Refused by 18.
    pub fn save(&mut self, name: u8) -> Result<(), Refusal>
        requires { Good self.old }
        ensures { Moves (saves name) self.old (told_by result) self.new }
    {
        let i = usize::from(name);
        check_name(i, false)?;
        self.names[i] = Named {
            held: true,
            placed: self.placed,
            pile: self.pile,
        };
        Ok(())
    }

    // Whether nothing is held under a name, as under one above the last.
    fn is_free(&self, i: usize) -> bool
        requires { Good self.now }
        ensures { result ≡ is_missing (named (shown self.now) i) }
    {
        NAMES <= i || !self.names[i].held
    }

    // Returns to what is saved under a name, and counts anew. Refused by 18 and 17.
    pub fn return_to(&mut self, name: u8) -> Result<(), Refusal>
        requires { Good self.old }
        ensures { Moves (returns name) self.old (told_by result) self.new }
    {
        let i = usize::from(name);
        check_name(i, self.is_free(i))?;
        self.placed = self.names[i].placed;
        self.pile = self.names[i].pile;
        self.counts = [0; Table::PROCESSES];
        Ok(())
    }

    // Forgets a name. Refused by 18 and 17.
    pub fn forget(&mut self, name: u8) -> Result<(), Refusal>
        requires { Good self.old }
        ensures { Moves (forgets name) self.old (told_by result) self.new }
    {
        let i = usize::from(name);
        check_name(i, self.is_free(i))?;
        self.names[i].held = false;
        Ok(())
    }

    // Looks at where the desk stands.
    pub fn look(&self) -> Sight
        requires { Good self.now }
        ensures { result ≡ sight_of (shown self.now).here }
    {
        let top = self.placed.top;
        let mut pile = self.pile;
        bring_front(&mut pile, top);
        Sight {
            states: self.placed.states,
            length: PILE - top,
            pile,
        }
    }

    // Tells who took part, and how often.
    pub fn counts(&self) -> Counts
        requires { Good self.now }
        ensures { result ≡ counts_of (shown self.now) }
    {
        Counts { steps: self.counts }
    }
}
