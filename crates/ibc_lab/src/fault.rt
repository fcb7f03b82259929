//! What is wrong at a place of a script.

ghost use Rattle.std.specs.Prelude.{◌≡◌};
ghost use Rattle.ibc_lab.specs.Forms.{parts_of};
ghost use Rattle.ibc_lab.specs.Faults.{Gains, fault_at};

use crate::{Leaf, Member, ScriptPlace, TextForm};
use ibc_ids::Bytes;
use std::alloc::AllocError;

/// A list of a fixed number of items, each of a form of its own.
#[derive(Clone, Copy)]
pub enum Tuple {
    /// Two chains.
    Pair,
    /// A packet: its chain, its port, its channel and its sequence.
    Packet,
    /// A token: its denomination and its amount.
    Token,
    /// A balance: its user, its denomination and its amount.
    Balance,
}

/// What is wrong.
#[derive(Drop)]
pub enum FaultKind {
    /// What stands there isn't of the form.
    Leaf(Leaf),
    /// What stands there is no such list.
    Tuple(Tuple),
    /// What stands there is no object.
    Object,
    /// The object that stands there lacks the member.
    Missing(Member),
    /// The object that stands there has a member of this name, which it may not have.
    Unknown(Bytes),
    /// A chain before this one has the name.
    NameTwice,
    /// The two chains are one.
    OneChain,
    /// The denominations don't rise in byte order.
    NotRising,
    /// A chain would keep more heights than it may publish.
    AboveCapacity,
    /// The user has the denomination in a balance before this one.
    HeldTwice,
    /// With this amount, those of the denomination are more than 2^128 - 1 together.
    TooMuch,
    /// The text is no JSON.
    NoJson,
    /// The text has more bytes than a script may have.
    TooLong,
    /// It is no script for another reason.
    NoScript,
}

/// What is wrong, and where.
#[derive(Drop)]
pub struct ScriptFault {
    pub place: ScriptPlace,
    pub wrong: FaultKind,
}

impl Tuple {
    /// The forms of the items.
    pub fn parts(self) -> &'static [Leaf]
        ensures { result.now ≡ parts_of self }
    {
        match self {
            Tuple::Pair => &[Leaf::Known, Leaf::Known],
            Tuple::Packet => &[
                Leaf::Known,
                Leaf::Text(TextForm::Port),
                Leaf::Text(TextForm::Channel),
                Leaf::Number(0, u64::MAX),
            ],
            Tuple::Token => &[Leaf::Text(TextForm::Denom), Leaf::Text(TextForm::Amount)],
            Tuple::Balance => &[
                Leaf::Text(TextForm::User),
                Leaf::Text(TextForm::BaseDenom),
                Leaf::Text(TextForm::Amount),
            ],
        }
    }
}

/// Notes a fault behind those that were found before.
pub fn note(
    found: &mut Vec<ScriptFault>,
    place: ScriptPlace,
    wrong: FaultKind,
) -> Result<(), AllocError>
    ensures { Gains result found.old found.new (fault_at place wrong) }
{
    found.push(ScriptFault { place, wrong })?;
    Ok(())
}
