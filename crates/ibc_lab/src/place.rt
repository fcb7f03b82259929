//! Places in a script.

ghost use Rattle.std.specs.Prelude.{◌≡◌};
ghost use Rattle.ibc_lab.specs.Places.{place_of, at_member, inside};

use crate::Member;

/// A part of a script that is an object by itself: the script, or the chain or the step at a place, from 0.
#[derive(Clone, Copy)]
pub enum ScriptPart {
    Script,
    Chain(usize),
    Step(usize),
}

/// Where something stands in a script: in which object, in which of its members, at which place of the list that the
/// member is, and at which place of the list that stands there.
#[derive(Clone, Copy)]
pub struct ScriptPlace {
    pub object: ScriptPart,
    pub member: Option<Member>,
    pub item: Option<usize>,
    pub part: Option<usize>,
}

impl ScriptPlace {
    /// The place of an object.
    pub fn of(object: ScriptPart) -> ScriptPlace
        ensures { result ≡ place_of object }
    {
        ScriptPlace {
            object,
            member: None,
            item: None,
            part: None,
        }
    }

    /// The place of a member of the object that stands here.
    pub fn member(self, member: Member) -> ScriptPlace
        ensures { result ≡ at_member self member }
    {
        ScriptPlace {
            object: self.object,
            member: Some(member),
            item: self.item,
            part: self.part,
        }
    }

    /// A place in the list that stands here, from 0.
    pub fn inside(self, index: usize) -> ScriptPlace
        ensures { result ≡ inside self index }
    {
        match self.item {
            None => ScriptPlace {
                object: self.object,
                member: self.member,
                item: Some(index),
                part: self.part,
            },
            Some(item) => ScriptPlace {
                object: self.object,
                member: self.member,
                item: Some(item),
                part: Some(index),
            },
        }
    }
}
