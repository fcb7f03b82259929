//! What stands in a JSON value.

ghost use Rattle.std.specs.Prelude.{◌≡◌, map, option_map};
ghost use Rattle.serde_json.specs.View.{view};
ghost use Rattle.ibc_lab.specs.Values.{item_text, items_at, items_in, items_of, kind_in, name_in, text_at};

use crate::StepKind;
use serde_json::Value;

/// The items of a list, where the value is one.
pub fn items_in(value: &Value) -> Option<&[Value]>
    ensures { option_map (λ items. map view items.now) result ≡ items_in (view value.now) }
{
    match value.as_array() {
        Some(items) => Some(items.as_slice()),
        None => None,
    }
}

/// The items of a list; none where the value is no list.
pub fn items_of(value: &Value) -> &[Value]
    ensures { map view result.now ≡ items_of (view value.now) }
{
    match items_in(value) {
        Some(items) => items,
        None => &[],
    }
}

/// The items of the member of this name; none where it is no list, or isn't there.
pub fn items_at<'v>(object: &'v Value, name: &str) -> &'v [Value]
    ensures { map view result.now ≡ items_at name.now (view object.now) }
{
    match object.get(name) {
        Some(value) => items_of(value),
        None => &[],
    }
}

/// The text that the member of this name is.
pub fn text_at<'v>(object: &'v Value, name: &str) -> Option<&'v str>
    ensures { option_map (λ text. text.now) result ≡ text_at name.now (view object.now) }
{
    match object.get(name) {
        Some(value) => value.as_str(),
        None => None,
    }
}

/// The text that the item at a place of a list is.
pub fn item_text(value: &Value, index: usize) -> Option<&str>
    ensures { option_map (λ text. text.now) result ≡ item_text index (view value.now) }
{
    match value.get(index) {
        Some(item) => item.as_str(),
        None => None,
    }
}

/// The name that a chain's object gives.
pub fn name_in(chain: &Value) -> Option<&str>
    ensures { option_map (λ text. text.now) result ≡ name_in (view chain.now) }
{
    text_at(chain, "name")
}

/// The kind that a step's object names.
pub fn kind_in(step: &Value) -> Option<StepKind>
    ensures { result ≡ kind_in (view step.now) }
{
    match text_at(step, "do") {
        Some(name) => StepKind::of(name),
        None => None,
    }
}
