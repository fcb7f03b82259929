//! What is wrong with a script, and where it stands.
#![tactic(auto)]

mod checking;
mod fault;
mod genesis;
mod judge;
mod leaf;
mod member;
mod message;
mod nearest;
mod owed;
mod place;
mod position;
mod reporting;
mod step_kind;
mod syntax;
mod text_form;
mod texts;
mod tokens;
mod values;

pub use checking::{Verdict, check};
pub use fault::{FaultKind, ScriptFault, Tuple};
pub use judge::script_faults;
pub use leaf::Leaf;
pub use member::Member;
pub use owed::{MemberForm, Owed};
pub use place::{ScriptPart, ScriptPlace};
pub use position::{Spot, spot_at};
pub use reporting::{MOST_LINES, report};
pub use step_kind::StepKind;
pub use text_form::TextForm;
