//! Lists by a function: changing the items in their places, and extending by what is made of others.
ghost use Rattle.std.specs.Prelude.{◌≡◌, length, map};

use crate::SliceVec;

/// A function from one item to another. Not a closure, since a call with one would require that it may be called.
pub trait Map<S, T> {
    ghost image: { Self → S → T };

    fn image(&self, source: S) -> T
        ensures { result ≡ image self.now source };
}

/// Each item stays as it is.
pub(crate) struct Same;

impl<T> Map<T, T> for Same {
    ghost image = { λ _ x. x };

    fn image(&self, source: T) -> T {
        source
    }
}

fn change_each<T: Copy, M: Map<T, T>>(items: &mut [T], by: &M)
    ensures { items.new ≡ map (M.image by.now) items.old }
{
    for item in items.iter_mut() {
        *item = by.image(*item);
    }
}

fn write_each<S: Copy, T: Copy, M: Map<S, T>>(items: &mut [T], sources: &[S], by: &M)
    requires { length items.old ≡ length sources.now }
    ensures { items.new ≡ map (M.image by.now) sources.now }
{
    // By number: over `items.iter_mut().zip(sources)` nothing is known of what was written.
    for (i, source) in sources.iter().enumerate() {
        items[i] = by.image(*source);
    }
}

impl<'a, T: Copy, const MAX: usize> SliceVec<'a, T, MAX> {
    ghost use Rattle.slice_vec.specs.Held.{held, pushed, rewritten};

    /// Changes each item in use.
    pub fn change_all<M: Map<T, T>>(&mut self, by: &M)
        ensures { held self.new ≡ rewritten (held self.old) (map (M.image by.now) (held self.old).used) }
    {
        change_each(&mut self.items[..self.len], by);
    }

    /// Extends the list by what becomes of each source, where there is space for all.
    pub fn extend_by<S: Copy, M: Map<S, T>>(&mut self, sources: &[S], by: &M)
        ensures { held self.new ≡ pushed MAX (held self.old) (map (M.image by.now) sources.now) }
    {
        if sources.len() <= self.space() {
            let end = self.len + sources.len();
            write_each(&mut self.items[self.len..end], sources, by);
            self.len = end;
        }
    }
}
