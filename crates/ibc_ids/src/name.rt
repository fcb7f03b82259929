//! Texts of one kind.

ghost use Rattle.std.specs.Prelude.{◌≡◌, ◌↔◌, List, ℕ, Some, refl, bytes_eq, string_bytes, IsTrue, IfOk, IfErr, IsErrOf, IsOkUnless};
ghost use Rattle.std.specs.Ordering.{nat_cmp};
ghost use Rattle.std.specs.Cmp.{on_equiv, on_total, on_po, on_per, partial_equiv_from_equiv};
ghost use Rattle.std.specs.Cmp.Lexicographic.{slice_cmp, nat_list_eq_equiv, nat_list_cmp_total, texts_ties, texts_po};

use crate::name_text::NameText;
use crate::{NameKind, Refusal};
use std::alloc::{AllocError, Global};
use std::cmp::Ordering;
use std::marker::{Model, PhantomData};

/// A text of one kind, as a client's identifier or a denomination. Contracts see it as its bytes. A short one takes no
/// memory of its own.
#[derive(Drop, Debug)]
pub struct Name<K: NameKind> {
    text: NameText,
    kind: PhantomData<K>,
}

impl<K: NameKind> Model for Name<K> {
    ghost Value = { List ℕ };

    ghost view = { λ a. a.text };

    ghost invariant = { λ a. IsTrue (K.form a.text) };
}

impl<K: NameKind> Name<K> {
    /// The name with this text. Refused: `BadName` exactly where the text hasn't the form of the kind; `NoMemory`.
    pub fn parse(alloc: Global, text: &str) -> Result<Name<K>, Refusal>
        ensures ok { IfOk result (λ name. (name ≡ text.now) × IsTrue (K.form text.now)) }
        ensures bad { IsErrOf result Refusal.BadName ↔ ¬ IsTrue (K.form text.now) }
        ensures memory { IsTrue (K.form text.now) → IsOkUnless result Refusal.NoMemory }
    {
        if !K::has_form(text.as_bytes()) {
            return Err(Refusal::BadName);
        }
        Ok(Name {
            text: NameText::copy_of(alloc, text)?,
            kind: PhantomData,
        })
    }

    /// The name with this text, which is moved in. Refused: `BadName` exactly where the text hasn't the form of the kind.
    pub(crate) fn from_text(text: String) -> Result<Name<K>, Refusal>
        ensures ok { IfOk result (λ name. (name ≡ string_bytes text) × IsTrue (K.form (string_bytes text))) }
        ensures err { IfErr result (λ e. (e ≡ Refusal.BadName) × ¬ IsTrue (K.form (string_bytes text))) }
    {
        if K::has_form(text.as_bytes()) {
            Ok(Name {
                text: NameText::from_string(text),
                kind: PhantomData,
            })
        } else {
            Err(Refusal::BadName)
        }
    }

    /// The name with these bytes. Refused as by `parse`.
    pub fn from_bytes(alloc: Global, bytes: &[u8]) -> Result<Name<K>, Refusal>
        ensures ok { IfOk result (λ name. (name ≡ bytes.now) × IsTrue (K.form bytes.now)) }
        ensures bad { IsErrOf result Refusal.BadName ↔ ¬ IsTrue (K.form bytes.now) }
        ensures memory { IsTrue (K.form bytes.now) → IsOkUnless result Refusal.NoMemory }
    {
        K::lemma_short_and_ascii();
        match str::from_utf8(bytes) {
            Ok(text) => Name::parse(alloc, text),
            Err(_) => Err(Refusal::BadName),
        }
    }

    /// The name's text.
    pub fn as_str(&self) -> &str
        ensures text { result.now ≡ self.now }
        ensures form { IsTrue (K.form self.now) }
    {
        self.text.as_str()
    }

    /// A name has the form of its kind.
    pub fn lemma_has_form(&self)
        ensures { IsTrue (K.form self.now) }
    {
        let _text = &self.text;
    }
}

impl<K: NameKind> Clone for Name<K> {
    ghost is_clone = { λ name copy. copy ≡ name };

    fn clone(&self) -> Result<Name<K>, AllocError> {
        Ok(Name {
            text: self.text.clone()?,
            kind: PhantomData,
        })
    }
}

impl<K: NameKind> PartialEq for Name<K> {
    ghost eq = { λ a b. bytes_eq a b };

    ghost laws = { on_per (λ a. a) (partial_equiv_from_equiv nat_list_eq_equiv) };

    fn eq(&self, other: &Name<K>) -> bool {
        self.as_str() == other.as_str()
    }
}

impl<K: NameKind> Eq for Name<K> {
    ghost laws = { on_equiv (λ a. a) nat_list_eq_equiv };
}

impl<K: NameKind> PartialOrd for Name<K> {
    ghost partial_cmp = { λ a b. Some (slice_cmp nat_cmp a b) };

    ghost laws = { on_po (λ a. a) texts_po };

    fn partial_cmp(&self, other: &Name<K>) -> Option<Ordering> {
        Some(self.cmp(other))
    }
}

impl<K: NameKind> Ord for Name<K> {
    ghost cmp = { λ a b. slice_cmp nat_cmp a b };

    ghost total = { on_total (λ a. a) nat_list_cmp_total };

    ghost matches_partial_cmp = { λ a b. refl };

    ghost matches_eq = { λ a b. texts_ties a b };

    fn cmp(&self, other: &Name<K>) -> Ordering {
        self.as_str().cmp(other.as_str())
    }
}
