// A list of at most so many items, which lie in the value itself: what stands on it does not allocate.
#![tactic(auto)]

ghost use Rattle.std.specs.Prelude.{◌≡◌, ◌+◌, ◌<◌, ◌≤◌, ◌==◌, [], ◌∷◌, ◌++◌, length, take};

use std::marker::Model;

// At most `N` items, at the front of an array. A contract sees the items, and what the rest of the array holds, of which nothing is promised.
// The kit's `ArrayVec` is not `Copy`, and its clone can fail; books, seats and rows are copied, and no copy of them fails.
#[derive(Clone, Copy)]
pub struct ShortList<T, const N: usize> {
    array: [T; N],
    count: usize,
}

impl<T, const N: usize> Model for ShortList<T, N> {
    ghost use Rattle.std.specs.Prelude.{◌≡◌, ◌≤◌, ◌++◌, length, take, drop};
    ghost use Rattle.std.proofs.Common.{arith, take-append-drop, length-take-le};
    ghost use Rattle.short_lists.specs.Items.{Items, items_code};

    ghost Value = { Items T };

    ghost coded = { items_code T.code };

    ghost view = { λ s. record { items = take s.count s.array; spare = drop s.count s.array } };

    ghost invariant = { λ s. (s.count ≤ N) × (length s.array ≡ N) };

    ghost inverse = { λ v. record { array = v.items ++ v.spare; count = length v.items } };

    ghost inverse_ok = { λ s h i. record {
      array = take-append-drop s.count s.array i;
      count = length-take-le s.count s.array (omega (arith, h.0, h.1)) i;
    } };
}

impl<T: Copy, const N: usize> ShortList<T, N> {
    // No item. The array is filled with `blank`.
    pub fn new(blank: T) -> ShortList<T, N>
        ensures { result.items ≡ [] }
    {
        ShortList {
            array: [blank; N],
            count: 0,
        }
    }

    // The items.
    pub fn as_slice(&self) -> &[T]
        ensures items { result.now ≡ self.now.items }
        ensures fits { length result.now ≤ N }
    {
        &self.array[..self.count]
    }

    // Whether there is no room for another item.
    pub fn is_full(&self) -> bool
        ensures full { result ≡ (length self.now.items == N) }
        ensures fits { length self.now.items ≤ N }
    {
        self.count == N
    }

    // Adds an item after the others. There must be room.
    pub fn push(&mut self, item: T)
        requires { length self.old.items < N }
        ensures { self.new.items ≡ self.old.items ++ item ∷ [] }
    {
        self.array[self.count] = item;
        self.count += 1;
    }

    // Adds items after the others. There must be room.
    pub fn extend_from_slice(&mut self, items: &[T])
        requires { length self.old.items + length items.now ≤ N }
        ensures { self.new.items ≡ self.old.items ++ items.now }
    {
        let start = self.count;
        let end = start + items.len();
        let array = &mut self.array[..];
        array[start..end].copy_from_slice(items);
        self.count = end;
    }

    // Keeps the first items, at most that many.
    pub fn truncate(&mut self, count: usize)
        ensures { self.new.items ≡ take count self.old.items }
    {
        self.count = self.count.min(count);
    }
}
