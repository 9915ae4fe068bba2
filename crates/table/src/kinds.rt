// The kinds of items, and what a kind fixes.
ghost use Rattle.std.specs.Prelude.{◌≡◌};
ghost use Rattle.model.specs.Tables.{body_length, ceiling};
ghost use Rattle.table.specs.Kinds.{kind_number, Decodes};

use crate::{RULE_BODY, Table};
use model::STRANGER;

// A kind of item, by its number in a table's bytes.
#[derive(Clone, Copy, Debug, PartialEq, Eq, PartialOrd, Ord)]
pub enum Kind {
    Process = 1,
    Letter = 2,
    Rule = 3,
    Transition = 4,
    Accepting = 5,
    Start = 6,
    Pile = 7,
    End = 8,
}

impl TryFrom<u8> for Kind {
    // Check 2: the number of the refusal.
    type Error = u8;

    ghost try_from_gives = { Decodes };

    fn try_from(number: u8) -> Result<Self, u8> {
        match number {
            1 => Ok(Kind::Process),
            2 => Ok(Kind::Letter),
            3 => Ok(Kind::Rule),
            4 => Ok(Kind::Transition),
            5 => Ok(Kind::Accepting),
            6 => Ok(Kind::Start),
            7 => Ok(Kind::Pile),
            8 => Ok(Kind::End),
            _ => Err(STRANGER),
        }
    }
}

impl Kind {
    // How many bytes follow the kind.
    pub fn body_length(self) -> usize
        ensures { result ≡ body_length (kind_number self) }
    {
        match self {
            Kind::Process => 2,
            Kind::Letter | Kind::Pile => 1,
            Kind::Rule => RULE_BODY,
            Kind::Transition => 9,
            Kind::Accepting | Kind::Start => 4,
            Kind::End => 0,
        }
    }

    // How many items of the kind a table may have.
    pub fn ceiling(self) -> usize
        ensures { result ≡ ceiling (kind_number self) }
    {
        match self {
            Kind::Process => Table::PROCESSES,
            Kind::Letter => Table::LETTERS,
            Kind::Rule => Table::RULES,
            Kind::Transition => Table::TRANSITIONS,
            Kind::Accepting => Table::ACCEPTING,
            Kind::Start | Kind::End => 1,
            Kind::Pile => Table::PILE,
        }
    }
}
