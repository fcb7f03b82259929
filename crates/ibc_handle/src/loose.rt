//! A box as its pointer, for handles that cross to C.

ghost use Rattle.std.specs.Prelude.{◌≡◌};
ghost use Rattle.std_alloc.specs.Box.Ownership.{box_owns};

use std::alloc::Allocator;
use std::marker::Model;

/// A box taken apart: the pointer to its value, and the allocator that frees it. It owns what the
/// box owned.
pub struct BoxParts<T, A: Allocator> {
    /// Where the value lies. It is never null.
    pub at: *mut T,
    /// What frees the value's block.
    pub alloc: A,
    /// The value that lies there.
    pub ghost value: { T },
}

impl<T, A: Allocator> Model for BoxParts<T, A> {
    ghost also_owns = { λ l. box_owns (A.dealloc_token l.alloc) T.row l.at l.value };
}

impl<T: Drop, A: Allocator> BoxParts<T, A> {
    /// Takes the box apart. Nothing is freed or moved.
    pub fn of(value: Box<T, A>) -> BoxParts<T, A>
        ensures { result.value ≡ value.value }
    {
        let (at, alloc) = Box::into_raw_with_allocator(value);
        BoxParts { at, alloc }
    }

    /// Makes the box again.
    pub fn into_box(self) -> Box<T, A>
        ensures { result.value ≡ self.value }
    {
        let BoxParts { at, alloc } = self;
        unsafe { Box::from_raw(alloc, at) }
    }
}
