//! Forms of values that have no parts of their own.

ghost use Rattle.std.specs.Prelude.{◌≡◌, map, IfOk};
ghost use Rattle.serde_json.specs.Find.{as_str};
ghost use Rattle.serde_json.specs.View.{view};
ghost use Rattle.ibc_lab.specs.Texts.{is_base64, text_fits};
ghost use Rattle.ibc_lab.specs.Values.{items_in, passes, whole_number};
ghost use Rattle.ibc_lab.specs.Leaves.{has_length, is_known, is_named, is_within, leaf_fits};

use crate::TextForm;
use crate::texts::text_fits;
use crate::values::{items_in, name_in};
use base64::DecodeAllocError;
use base64::engine::general_purpose::STANDARD;
use serde_json::Value;
use std::alloc::{AllocError, Global};

/// What a value has to be by itself.
#[derive(Clone, Copy)]
pub enum Leaf {
    /// A text of a form.
    Text(TextForm),
    /// The name of one of the script's chains.
    Known,
    /// A text that writes bytes in base64.
    Base64,
    /// A whole number, at least the first and at most the second.
    Number(u64, u64),
    /// A list, with at least so many items as the first says, and at most so many as the second.
    List(usize, usize),
}

impl Leaf {
    /// Whether the value is what the form says, in a script of these chains.
    pub fn fits(self, alloc: Global, chains: &[Value], value: &Value) -> Result<bool, AllocError>
        ensures { IfOk result (λ fits. fits ≡ leaf_fits (map view chains.now) self (view value.now)) }
    {
        match self {
            Leaf::Text(form) => Ok(is_text(form, value)),
            Leaf::Known => Ok(is_chain(chains, value)),
            Leaf::Base64 => is_base64_text(alloc, value),
            Leaf::Number(least, most) => Ok(is_number(least, most, value)),
            Leaf::List(least, most) => Ok(is_list(least, most, value)),
        }
    }
}

fn is_text(form: TextForm, value: &Value) -> bool
    ensures { result ≡ passes (text_fits form) (as_str (view value.now)) }
{
    match value.as_str() {
        Some(text) => text_fits(form, text),
        None => false,
    }
}

fn is_chain(chains: &[Value], value: &Value) -> bool
    ensures { result ≡ passes (is_known (map view chains.now)) (as_str (view value.now)) }
{
    match value.as_str() {
        Some(text) => is_known(chains, text),
        None => false,
    }
}

/// Whether one of the chains has the name.
pub fn is_known(chains: &[Value], name: &str) -> bool
    ensures { result ≡ is_known (map view chains.now) name.now }
{
    for chain in chains {
        if is_named(chain, name) {
            return true;
        }
    }
    false
}

fn is_named(chain: &Value, name: &str) -> bool
    ensures { result ≡ is_named name.now (view chain.now) }
{
    match name_in(chain) {
        Some(own) => own == name,
        None => false,
    }
}

fn is_base64_text(alloc: Global, value: &Value) -> Result<bool, AllocError>
    ensures { IfOk result (λ fits. fits ≡ passes is_base64 (as_str (view value.now))) }
{
    match value.as_str() {
        Some(text) => is_base64(alloc, text),
        None => Ok(false),
    }
}

#[tactic(auto, unfolding(crate::specs::Texts::is_base64))]
fn is_base64(alloc: Global, text: &str) -> Result<bool, AllocError>
    ensures { IfOk result (λ fits. fits ≡ is_base64 text.now) }
{
    match STANDARD.decode(alloc, text.as_bytes()) {
        Ok(bytes) => {
            drop(bytes);
            Ok(true)
        }
        Err(DecodeAllocError::DecodeError(_)) => Ok(false),
        Err(DecodeAllocError::OutOfMemory) => Err(AllocError),
    }
}

fn is_number(least: u64, most: u64, value: &Value) -> bool
    ensures { result ≡ passes (is_within least most) (whole_number value.now) }
{
    match value.as_u64() {
        Some(number) => least <= number && number <= most,
        None => false,
    }
}

#[tactic(auto, using(crate::proofs::Lists::length_of_views))]
fn is_list(least: usize, most: usize, value: &Value) -> bool
    ensures { result ≡ passes (has_length least most) (items_in (view value.now)) }
{
    match items_in(value) {
        Some(items) => least <= items.len() && items.len() <= most,
        None => false,
    }
}
