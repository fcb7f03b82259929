//! A value behind a pointer, as C holds it.
ghost use Rattle.std.specs.Prelude.{◌≡◌, IsSome, OnOk, OnErr, is_none, is_some};
ghost use Rattle.std.specs.Option.{MatchOption};
ghost use Rattle.std.specs.declared.option.Option.{Option};
ghost use Rattle.std.specs.declared.option.Option.TheVariants.{None, Some};
ghost use Rattle.ibc_handle.specs.Joining.{MemberJoinsIfSameNumber, IsJoined};
ghost use Rattle.ibc_handle.specs.declared.handle_value.HandleValue.{HandleValue as Value};

use crate::handle_value::HandleValue;
use crate::{BoxParts, NotJoined, WorldLedgers};
use std::alloc::{AllocError, Global};
use std::marker::{Model, Send};
use std::mem::replace;
use std::ptr::null_mut;

/// A value that C holds, or none. C begins with a null pointer, which holds none.
#[repr(C)]
pub struct Handle {
    at: *mut u8,
    /// What the handle holds.
    pub ghost value: { Option Value },
}

impl Model for Handle {
    ghost use Rattle.ibc_handle.specs.contracts.handle_value.HandleValue.{the_row};
    ghost use Rattle.ibc_handle.specs.OwnedBoxes.{owned_box};

    ghost also_owns = { λ h. owned_box the_row h.at h.value };
}

impl Handle {
    /// A handle that holds nothing.
    pub fn empty() -> Handle
        ensures { result.value ≡ None }
    {
        Handle { at: null_mut() }
    }

    fn of_loose(loose: BoxParts<HandleValue, Global>) -> Handle
        ensures { result.value ≡ Some loose.value }
    {
        let BoxParts { at, alloc: _ } = loose;
        Handle { at: at as *mut u8 }
    }

    fn into_loose(self, alloc: Global) -> Option<BoxParts<HandleValue, Global>>
        ensures { MatchOption result (self.value ≡ None) (λ l. self.value ≡ Some l.value) }
    {
        let Handle { at } = self;
        if at.is_null() {
            None
        } else {
            Some(BoxParts {
                at: at as *mut HandleValue,
                alloc,
            })
        }
    }

    fn into_box(self, alloc: Global) -> Option<Box<HandleValue>>
        ensures { MatchOption result (self.value ≡ None) (λ b. self.value ≡ Some b.value) }
    {
        match self.into_loose(alloc) {
            None => None,
            Some(loose) => Some(loose.into_box()),
        }
    }

    /// Takes what the handle holds, and leaves it empty.
    pub fn take(&mut self, alloc: Global) -> Option<Box<HandleValue>>
        ensures value { MatchOption result (self.old.value ≡ None) (λ b. self.old.value ≡ Some b.value) }
        ensures left { self.new.value ≡ None }
    {
        replace(self, Handle::empty()).into_box(alloc)
    }

    // Puts a value into the handle, and answers what it held before.
    fn put(&mut self, alloc: Global, held: Box<HandleValue>) -> Option<Box<HandleValue>>
        ensures value { MatchOption result (self.old.value ≡ None) (λ b. self.old.value ≡ Some b.value) }
        ensures left { self.new.value ≡ Some held.value }
    {
        replace(self, Handle::of_loose(BoxParts::of(held))).into_box(alloc)
    }

    /// The handle holds this value. What it held before is let go.
    pub fn set(&mut self, alloc: Global, held: Box<HandleValue>)
        ensures { self.new.value ≡ Some held.value }
    {
        drop(self.put(alloc, held));
    }

    /// Whether the handle holds nothing. It keeps what it holds.
    pub fn is_empty(&mut self, alloc: Global) -> bool
        ensures empty { result ≡ is_none self.old.value }
        ensures kept { self.new.value ≡ self.old.value }
    {
        match self.take(alloc) {
            None => true,
            Some(held) => {
                self.set(alloc, held);
                false
            }
        }
    }

    /// Puts a value into the handle; what it held before is let go. Where a growth is refused, the handle is as it was, and the
    /// value is let go.
    pub fn fill(&mut self, alloc: Global, value: HandleValue) -> Result<(), AllocError>
        ensures ok { OnOk result (self.new.value ≡ Some value) }
        ensures err { OnErr result (self.new.value ≡ self.old.value) }
    {
        match Box::new(alloc, value) {
            Ok(held) => {
                self.set(alloc, held);
                Ok(())
            }
            Err(_) => Err(AllocError),
        }
    }

    /// The handle, which holds something, holds this value in its place. No memory is asked for.
    pub fn replace(&mut self, alloc: Global, value: HandleValue)
        requires { IsSome self.old.value }
        ensures { self.new.value ≡ Some value }
    {
        match self.take(alloc) {
            None => unreachable!(),
            Some(held) => {
                let mut held = held;
                held.put(value);
                self.set(alloc, held);
            }
        }
    }

    /// Moves the ledger that the handle holds to others of its world. Where it is refused, nothing has changed.
    pub fn join(&mut self, alloc: Global, all: &mut WorldLedgers) -> Result<(), NotJoined>
        requires { MemberJoinsIfSameNumber all.old self.old.value }
        ensures { IsJoined all.old self.old.value all.new self.new.value result }
    {
        match self.take(alloc) {
            None => Err(NotJoined::Empty),
            Some(held) => {
                let mut held = held;
                match held.join(alloc, all) {
                    Ok(()) => {
                        drop(held);
                        Ok(())
                    }
                    Err(reason) => {
                        self.set(alloc, held);
                        Err(reason)
                    }
                }
            }
        }
    }

    /// Lets go what the handle holds. The result is whether it held something.
    pub fn free(&mut self, alloc: Global) -> bool
        ensures some { result ≡ is_some self.old.value }
        ensures left { self.new.value ≡ None }
    {
        match self.take(alloc) {
            None => false,
            Some(held) => {
                drop(held);
                true
            }
        }
    }
}

// It may go to another thread as what it holds may.
unsafe impl Send for Handle {}
