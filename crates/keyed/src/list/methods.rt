// What can be done with a keyed list.
ghost use Rattle.std.specs.Prelude.{◌≡◌, ◌+◌, ◌<◌, ◌≤◌, true, false, [], ◌∷◌, ◌++◌, length, take, ◌≢◌, slice_set};
ghost use Rattle.keyed.specs.Keys.{by, holds, Distinct};
ghost use Rattle.keyed.specs.Elements.{elements, memory, answer, grown, stored};

use super::{KeyedList, NotAdded};
use crate::key::Keyed;

// Whether one of the items has the key of `x`.
fn any_same<T: Keyed>(items: &[T], x: &T) -> bool
    ensures { result ≡ holds (by T.key T.same) items.now x.now }
{
    items.iter().any(|y| y.same_key(x))
}

// Writes `x` behind the first `n` items.
fn put<T: Keyed + Copy>(items: &mut [T], n: usize, x: T)
    requires { n < length items.old }
    ensures memory { items.new ≡ slice_set items.old n x }
    ensures front { take (n + 1) items.new ≡ take n items.old ++ x ∷ [] }
    ensures len { length (take n items.old) ≡ n }
    ensures distinct { holds (by T.key T.same) (take n items.old) x ≡ false → Distinct (by T.key T.same) (take n items.old) → Distinct (by T.key T.same) (take (n + 1) items.new) }
    ensures there { holds (by T.key T.same) (take (n + 1) items.new) x ≡ true }
{
    items[n] = x;
}

impl<'a, T> KeyedList<'a, T> {
    // No element yet; room for as many as there are items.
    pub fn new(items: &'a mut [T]) -> KeyedList<'a, T>
        ensures elements { elements result ≡ [] }
        ensures memory { memory result ≡ items.old }
        ensures named { result.items.ghost_name ≡ items.entry.ghost_name }
    {
        KeyedList { items, len: 0 }
    }

    // How many elements there are: so many of the items, from the front.
    pub fn len(&self) -> usize
        ensures value { result ≡ length (elements self.now) }
        ensures within { result ≤ length (memory self.now) }
        ensures front { take result (memory self.now) ≡ elements self.now }
    {
        self.as_slice().len()
    }

    // The elements, in the order in which they were added.
    pub fn as_slice(&self) -> &[T]
        ensures { result.now ≡ elements self.now }
    {
        &self.items[0..self.len]
    }
}

impl<'a, T: Keyed> KeyedList<'a, T> {
    // Whether an element has the key of `x`.
    pub fn contains(&self, x: &T) -> bool
        ensures value { result ≡ holds (by T.key T.same) (elements self.now) x.now }
        ensures alike { (y : T) → T.same (T.key x.now) (T.key y) ≡ true → result ≡ holds (by T.key T.same) (elements self.now) y }
    {
        any_same(self.as_slice(), x)
    }
}

impl<'a, T: Keyed + Copy> KeyedList<'a, T> {
    // Puts `x` at the end, unless an element of equal key is there or the list is full.
    pub fn add(&mut self, x: T) -> Result<(), NotAdded>
        ensures answer { result ≡ answer (by T.key T.same) (length (memory self.old)) (elements self.old) x }
        ensures elements { elements self.new ≡ grown result (elements self.old) x }
        ensures memory { memory self.new ≡ stored result (memory self.old) (length (elements self.old)) x }
        ensures room { length (memory self.new) ≡ length (memory self.old) }
        ensures distinct { Distinct (by T.key T.same) (elements self.old) → Distinct (by T.key T.same) (elements self.new) }
        ensures there { (result ≢ Err NotAdded.Full) → holds (by T.key T.same) (elements self.new) x ≡ true }
        ensures named { self.new.items.ghost_name ≡ self.old.items.ghost_name }
    {
        if self.contains(&x) {
            return Err(NotAdded::AlreadyThere);
        }
        let n = self.len;
        if n >= self.items.len() {
            return Err(NotAdded::Full);
        }
        put(&mut *self.items, n, x);
        self.len = n + 1;
        Ok(())
    }
}
