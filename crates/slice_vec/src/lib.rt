//! A list in memory that the caller lends.
#![tactic(auto)]

ghost use Rattle.std.specs.Prelude.{◌≡◌, ◌≤◌, ◌==◌, min, [], ◌∷◌, length, reverse};

use map::Same;

pub mod map;

/// At most `MAX` items: of the memory `capacity` places may be used, and the first `len` are.
/// A slice with a count, and no `Vec`: the memory is lent, and there is no heap.
#[derive(Drop)]
pub struct SliceVec<'a, T, const MAX: usize> {
    items: &'a mut [T],
    capacity: usize,
    len: usize,
    ghost counted: { capacity ≡ min (length items.now) MAX },
    ghost within: { len ≤ capacity },
}

impl<'a, T: Copy, const MAX: usize> SliceVec<'a, T, MAX> {
    ghost use Rattle.slice_vec.specs.Held.{held, empty_in, emptied, pushed, rewritten, room};

    /// An empty list in lent memory.
    pub fn new(items: &'a mut [T]) -> SliceVec<'a, T, MAX>
        ensures { held result ≡ empty_in items.old }
    {
        let capacity = items.len().min(MAX);
        SliceVec {
            items,
            capacity,
            len: 0,
        }
    }

    /// Empties the list. The memory stays as it is.
    pub fn clear(&mut self)
        ensures { held self.new ≡ emptied (held self.old) }
    {
        self.len = 0;
    }

    /// The items in use.
    pub fn as_slice(&self) -> &[T]
        ensures { result.now ≡ (held self.now).used }
    {
        &self.items[..self.len]
    }

    /// How many items are in use.
    pub fn len(&self) -> usize
        ensures count { result ≡ length (held self.now).used }
        ensures few { result ≤ MAX }
    {
        self.as_slice().len()
    }

    /// Whether none are.
    pub fn is_empty(&self) -> bool
        ensures { result ≡ (length (held self.now).used == 0) }
    {
        self.len == 0
    }

    /// How many items there is space for in all.
    pub fn capacity(&self) -> usize
        ensures { result ≡ room MAX (emptied (held self.now)) }
    {
        self.capacity
    }

    /// How many more items there is space for.
    pub fn space(&self) -> usize
        ensures { result ≡ room MAX (held self.now) }
    {
        self.capacity - self.len
    }

    /// Extends the list by an item, where there is space.
    pub fn push(&mut self, item: T)
        ensures { held self.new ≡ pushed MAX (held self.old) (item ∷ []) }
    {
        if self.space() > 0 {
            self.items[self.len] = item;
            self.len += 1;
        }
    }

    /// Extends the list by all of these items, where there is space for all.
    pub fn extend_from_slice(&mut self, items: &[T])
        ensures { held self.new ≡ pushed MAX (held self.old) items.now }
    {
        self.extend_by(items, &Same);
    }

    // No `as_mut_slice`: a `&mut` to a slice past a ghost field gets no proof, so the list is changed by calls.
    /// Puts the items in use in the other order.
    pub fn reverse(&mut self)
        ensures { held self.new ≡ rewritten (held self.old) (reverse (held self.old).used) }
    {
        self.items[..self.len].reverse();
    }
}
