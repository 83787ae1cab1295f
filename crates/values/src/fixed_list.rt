// A list of fixed room that is copied where it is passed on, which the kit's ArrayVec is not.
ghost use Rattle.std.specs.Prelude.{◌≤◌};

use std::alloc::AllocError;

// The first `count` items of the room are the list.
#[derive(Copy)]
pub struct FixedList<T: Copy, const N: usize> {
    count: usize,
    room: [T; N],
    ghost fits: { count ≤ N },
}

impl<T: Copy, const N: usize> Clone for FixedList<T, N> {
    ghost use Rattle.std.specs.Prelude.{◌≡◌, ⊤};

    ghost is_clone = { λ v w. w ≡ v };

    ghost is_infallible = { λ _. ⊤ };

    fn clone(&self) -> Result<Self, AllocError> {
        Ok(*self)
    }
}

impl<T: Copy + Default, const N: usize> FixedList<T, N> {
    ghost use Rattle.std.specs.Prelude.{◌≡◌, []};
    ghost use Rattle.values.specs.FixedLists.{items};

    // An empty list.
    pub fn new() -> Self
        ensures { items result ≡ [] }
    {
        FixedList {
            count: 0,
            room: [T::default(); N],
        }
    }
}

impl<T: Copy, const N: usize> FixedList<T, N> {
    ghost use Rattle.std.specs.Prelude.{◌≡◌, ◌≤◌, ◌<◌, [], ◌∷◌, ◌++◌, length};
    ghost use Rattle.values.specs.FixedLists.{items};

    // How many items it has.
    pub fn len(&self) -> usize
        ensures value { result ≡ length (items self.now) }
        ensures fits { result ≤ N }
    {
        self.as_slice().len()
    }

    // Its items.
    pub fn as_slice(&self) -> &[T]
        ensures value { result.now ≡ items self.now }
        ensures fits { length result.now ≤ N }
    {
        &self.room[..self.count]
    }

    // Appends an item, for which there is room.
    pub fn push(&mut self, item: T)
        requires { length (items self.old) < N }
        ensures { items self.new ≡ items self.old ++ item ∷ [] }
    {
        self.room[self.count] = item;
        self.count += 1;
    }
}
