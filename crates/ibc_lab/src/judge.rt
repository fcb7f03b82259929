//! What is wrong with the JSON value of a script.

ghost use Rattle.std.specs.Prelude.{◌≡◌, ◌<◌, length, map, take, IfOk};
ghost use Rattle.serde_json.specs.View.{view};
ghost use Rattle.ibc_lab.specs.Faults.{Gains, are_one, chain_faults, chains_faults, form_faults, is_owed, leaf_faults, member_faults, members_faults, missing_faults, name_twice_faults, object_faults, one_chain_faults, script_faults, step_faults, steps_faults, tuple_faults, unknown_faults};
ghost use Rattle.ibc_lab.specs.Judging.{each_flaws, flaws, kindless_flaws, parts_flaws, roll};
ghost use Rattle.ibc_lab.specs.Values.{name_in, names_in, passes, text_behind};
ghost use Rattle.ibc_lab.specs.Leaves.{is_known};

use crate::fault::note;
use crate::leaf::is_known;
use crate::owed::{chain_owes, kind_owed, script_owes, step_owes};
use crate::tokens::rising;
use crate::values::{item_text, items_at, items_in, items_of, kind_in, name_in};
use crate::{
    FaultKind, Leaf, Member, MemberForm, Owed, ScriptFault, ScriptPart, ScriptPlace, Tuple,
};
use ibc_ids::Bytes;
use serde_json::{Map, Value};
use std::alloc::{AllocError, Global};

/// What is wrong with the value of a script, each fault with its place.
pub fn script_faults(alloc: Global, script: &Value) -> Result<Vec<ScriptFault>, AllocError>
    ensures { IfOk result (λ faults. faults.items ≡ script_faults (view script.now)) }
{
    let mut found = Vec::new(alloc);
    let judge = Judge {
        alloc,
        chains: items_at(script, "chains"),
    };
    judge.object(
        ScriptPlace::of(ScriptPart::Script),
        script_owes(),
        script,
        &mut found,
    )?;
    judge.chains(&mut found)?;
    judge.steps(items_at(script, "steps"), &mut found)?;
    Ok(found)
}

/// Judges the parts of a script of some chains. What is wrong is noted behind what was found before.
#[derive(Clone, Copy)]
struct Judge<'v> {
    alloc: Global,
    chains: &'v [Value],
}

impl Judge<'_> {
    // The steps.
    fn steps(&self, steps: &[Value], found: &mut Vec<ScriptFault>) -> Result<(), AllocError>
        ensures { Gains result found.old found.new (steps_faults (roll self.now) 0 (map view steps.now)) }
    {
        for (index, step) in steps.iter().enumerate() {
            self.step(index, step, found)?;
        }
        Ok(())
    }

    fn step(
        &self,
        index: usize,
        step: &Value,
        found: &mut Vec<ScriptFault>,
    ) -> Result<(), AllocError>
        ensures { Gains result found.old found.new (step_faults (roll self.now) index (view step.now)) }
    {
        let place = ScriptPlace::of(ScriptPart::Step(index));
        match kind_in(step) {
            Some(kind) => self.object(place, step_owes(kind), step, found),
            None => self.kindless(place, step, found),
        }
    }

    // A step that names no kind.
    fn kindless(
        &self,
        place: ScriptPlace,
        step: &Value,
        found: &mut Vec<ScriptFault>,
    ) -> Result<(), AllocError>
        ensures { Gains result found.old found.new (kindless_flaws self.now place step.now) }
    {
        match step.as_object() {
            Some(_) => self.member(place, kind_owed(), step, found),
            None => note(found, place, FaultKind::Object),
        }
    }

    // The script's chains.
    fn chains(&self, found: &mut Vec<ScriptFault>) -> Result<(), AllocError>
        ensures { Gains result found.old found.new (chains_faults (roll self.now) 0 (roll self.now)) }
    {
        for (index, chain) in self.chains.iter().enumerate() {
            self.chain(index, chain, found)?;
        }
        Ok(())
    }

    fn chain(
        &self,
        index: usize,
        chain: &Value,
        found: &mut Vec<ScriptFault>,
    ) -> Result<(), AllocError>
        requires { index < length self.now.chains.now }
        ensures { Gains result found.old found.new (chain_faults (roll self.now) index (view chain.now)) }
    {
        let place = ScriptPlace::of(ScriptPart::Chain(index));
        self.object(place, chain_owes(), chain, found)?;
        self.name_twice(index, chain, found)
    }

    // A chain whose name one before it has.
    fn name_twice(
        &self,
        index: usize,
        chain: &Value,
        found: &mut Vec<ScriptFault>,
    ) -> Result<(), AllocError>
        requires { index < length self.now.chains.now }
        ensures { Gains result found.old found.new (name_twice_faults (roll self.now) index (view chain.now)) }
    {
        if is_name_in(chains_before(self.chains, index), chain) {
            let place = ScriptPlace::of(ScriptPart::Chain(index)).member(Member::Name);
            note(found, place, FaultKind::NameTwice)
        } else {
            Ok(())
        }
    }

    // An object that owes members.
    fn object(
        &self,
        place: ScriptPlace,
        owed: &[Owed],
        object: &Value,
        found: &mut Vec<ScriptFault>,
    ) -> Result<(), AllocError>
        ensures { Gains result found.old found.new (flaws self.now object_faults place owed.now object.now) }
    {
        match object.as_object() {
            Some(members) => {
                self.unknown(place, owed, members, found)?;
                self.members(place, owed, object, found)
            }
            None => note(found, place, FaultKind::Object),
        }
    }

    // The members that an object may not have.
    fn unknown(
        &self,
        place: ScriptPlace,
        owed: &[Owed],
        members: &Map<String, Value>,
        found: &mut Vec<ScriptFault>,
    ) -> Result<(), AllocError>
        ensures { Gains result found.old found.new (unknown_faults place owed.now (names_in members.now)) }
    {
        for name in members.keys() {
            if !is_owed(owed, name.as_str()) {
                let name = Bytes::copy_of(self.alloc, name.as_bytes())?;
                note(found, place, FaultKind::Unknown(name))?;
            }
        }
        Ok(())
    }

    // The members that an object owes.
    fn members(
        &self,
        place: ScriptPlace,
        owed: &[Owed],
        object: &Value,
        found: &mut Vec<ScriptFault>,
    ) -> Result<(), AllocError>
        ensures { Gains result found.old found.new (flaws self.now members_faults place owed.now object.now) }
    {
        for owes in owed {
            self.member(place, *owes, object, found)?;
        }
        Ok(())
    }

    fn member(
        &self,
        place: ScriptPlace,
        owed: Owed,
        object: &Value,
        found: &mut Vec<ScriptFault>,
    ) -> Result<(), AllocError>
        ensures { Gains result found.old found.new (flaws self.now member_faults place owed object.now) }
    {
        match object.get(owed.member.name()) {
            Some(value) => self.form(place.member(owed.member), owed.form, value, found),
            None => missing(place, owed, found),
        }
    }

    fn form(
        &self,
        place: ScriptPlace,
        form: MemberForm,
        value: &Value,
        found: &mut Vec<ScriptFault>,
    ) -> Result<(), AllocError>
        ensures { Gains result found.old found.new (flaws self.now form_faults place form value.now) }
    {
        match form {
            MemberForm::Leaf(leaf) => self.leaf(place, leaf, value, found),
            MemberForm::Pair => {
                self.tuple(place, Tuple::Pair, value, found)?;
                one_chain(place, value, found)
            }
            MemberForm::Packet => self.tuple(place, Tuple::Packet, value, found),
            MemberForm::Tokens => {
                self.leaf(place, Leaf::List(1, 8), value, found)?;
                self.each(place, Tuple::Token, items_of(value), found)?;
                rising(place, items_of(value), found)
            }
            MemberForm::Balances => {
                self.leaf(place, Leaf::List(0, usize::MAX), value, found)?;
                self.each(place, Tuple::Balance, items_of(value), found)
            }
        }
    }

    fn leaf(
        &self,
        place: ScriptPlace,
        leaf: Leaf,
        value: &Value,
        found: &mut Vec<ScriptFault>,
    ) -> Result<(), AllocError>
        ensures { Gains result found.old found.new (flaws self.now leaf_faults place leaf value.now) }
    {
        if leaf.fits(self.alloc, self.chains, value)? {
            Ok(())
        } else {
            note(found, place, FaultKind::Leaf(leaf))
        }
    }

    // Lists of a fixed number of items, one after another.
    fn each(
        &self,
        place: ScriptPlace,
        tuple: Tuple,
        items: &[Value],
        found: &mut Vec<ScriptFault>,
    ) -> Result<(), AllocError>
        ensures { Gains result found.old found.new (each_flaws self.now place tuple items.now) }
    {
        for (index, item) in items.iter().enumerate() {
            self.tuple(place.inside(index), tuple, item, found)?;
        }
        Ok(())
    }

    #[tactic(auto, using(crate::proofs::Lists::length_of_views))]
    fn tuple(
        &self,
        place: ScriptPlace,
        tuple: Tuple,
        value: &Value,
        found: &mut Vec<ScriptFault>,
    ) -> Result<(), AllocError>
        ensures { Gains result found.old found.new (flaws self.now tuple_faults place tuple value.now) }
    {
        let parts = tuple.parts();
        let Some(items) = items_in(value) else {
            return note(found, place, FaultKind::Tuple(tuple));
        };
        if items.len() == parts.len() {
            self.parts(place, parts, items, found)
        } else {
            note(found, place, FaultKind::Tuple(tuple))
        }
    }

    // Items, each of the form at its place.
    fn parts(
        &self,
        place: ScriptPlace,
        parts: &[Leaf],
        items: &[Value],
        found: &mut Vec<ScriptFault>,
    ) -> Result<(), AllocError>
        requires { length items.now ≡ length parts.now }
        ensures { Gains result found.old found.new (parts_flaws self.now place parts.now items.now) }
    {
        for (index, item) in items.iter().enumerate() {
            self.leaf(place.inside(index), parts[index], item, found)?;
        }
        Ok(())
    }
}

// The chains before a place.
#[tactic(auto, using(crate::proofs::Lists::take_of_views))]
fn chains_before(chains: &[Value], index: usize) -> &[Value]
    requires { index < length chains.now }
    ensures { map view result.now ≡ take index (map view chains.now) }
{
    &chains[..index]
}

// Whether one of the chains has the name of a chain.
fn is_name_in(chains: &[Value], chain: &Value) -> bool
    ensures { result ≡ passes (is_known (map view chains.now)) (name_in (view chain.now)) }
{
    match name_in(chain) {
        Some(name) => is_known(chains, name),
        None => false,
    }
}

fn is_owed(owed: &[Owed], name: &str) -> bool
    ensures { result ≡ is_owed owed.now name.now }
{
    for owes in owed {
        if owes.member.name() == name {
            return true;
        }
    }
    false
}

// A member that isn't there.
fn missing(place: ScriptPlace, owed: Owed, found: &mut Vec<ScriptFault>) -> Result<(), AllocError>
    ensures { Gains result found.old found.new (missing_faults place owed) }
{
    if owed.optional {
        Ok(())
    } else {
        note(found, place, FaultKind::Missing(owed.member))
    }
}

// Two chains that are one.
fn one_chain(
    place: ScriptPlace,
    value: &Value,
    found: &mut Vec<ScriptFault>,
) -> Result<(), AllocError>
    ensures { Gains result found.old found.new (one_chain_faults place (view value.now)) }
{
    if are_one(item_text(value, 0), item_text(value, 1)) {
        note(found, place, FaultKind::OneChain)
    } else {
        Ok(())
    }
}

fn are_one(first: Option<&str>, second: Option<&str>) -> bool
    ensures { result ≡ are_one (text_behind first.entry) (text_behind second.entry) }
{
    let Some(first) = first else {
        return false;
    };
    match second {
        Some(second) => first == second,
        None => false,
    }
}
