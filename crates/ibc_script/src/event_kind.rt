//! What an event is called in a printed line.

ghost use Rattle.std.specs.Prelude.{◌≡◌};
ghost use Rattle.ibc_script.specs.EventKinds.{kind_name_of};

use ibc_wire::MessageKind;

/// The kind of an event: which message it is, or the end of a block.
#[derive(Clone, Copy, Debug, PartialEq, Eq)]
pub enum EventKind {
    /// A message of a kind.
    Message(MessageKind),
    /// The end of a block.
    Block,
}

impl EventKind {
    /// The name by which a line calls the kind.
    pub fn name(self) -> &'static str
        ensures { result.now ≡ kind_name_of self }
    {
        match self {
            EventKind::Message(kind) => kind.name(),
            EventKind::Block => "Block",
        }
    }
}
