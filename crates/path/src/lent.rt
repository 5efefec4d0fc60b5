//! A list in lent memory that only its builders extend.
ghost use Rattle.std.specs.Prelude.{◌≡◌};

use crate::fault::PathFault;
use crate::space::{MAX_ITEMS, check_space};
use slice_vec::SliceVec;

/// Path points, or places. A type around the list, whose own calls it passes on, so that no caller can push to it.
#[derive(Drop)]
pub struct Lent<'a, T> {
    pub(crate) list: SliceVec<'a, T, MAX_ITEMS>,
}

impl<'a, T: Copy> Lent<'a, T> {
    ghost use Rattle.path.specs.Builders.{reserved};
    ghost use Rattle.path.specs.Held.{held, empty_in, emptied, room};

    /// An empty list in lent memory.
    pub fn new(items: &'a mut [T]) -> Lent<'a, T>
        ensures { held result ≡ empty_in items.old }
    {
        Lent {
            list: SliceVec::new(items),
        }
    }

    /// Empties the list. The memory stays as it is.
    pub fn clear(&mut self)
        ensures { held self.new ≡ emptied (held self.old) }
    {
        self.list.clear();
    }

    /// The items in use.
    pub fn as_slice(&self) -> &[T]
        ensures { result.now ≡ (held self.now).used }
    {
        self.list.as_slice()
    }

    /// Refuses where there is no space for so many more items.
    pub(crate) fn reserve(&self, additional: usize) -> Result<(), PathFault>
        ensures { result ≡ reserved additional (room (held self.now)) }
    {
        check_space(additional, self.list.space())
    }

    /// Refuses where there is no space for so many items in place of those in use.
    pub(crate) fn reserve_all(&self, count: usize) -> Result<(), PathFault>
        ensures { result ≡ reserved count (room (emptied (held self.now))) }
    {
        check_space(count, self.list.capacity())
    }
}
