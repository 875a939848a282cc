//! A list of values, which contracts see as the list itself.
ghost use Rattle.std.specs.Prelude.{◌≡◌, ◌==◌, [], ◌∷◌, ◌++◌, length, is_ok, IsOk, IfOk, IfErr, if◌then◌else◌};

use std::alloc::{AllocError, AllocFailed, Global};
use std::marker::Model;

/// A list of values. It is made from a `Vec` and gives it back without memory.
#[derive(Debug, Drop)]
pub struct Items<T> {
    items: Vec<T>,
}

impl<T> Model for Items<T> {
    ghost use Rattle.std.specs.Prelude.{List};

    ghost Value = { List T };

    ghost view = { λ s. s.items.items };
}

impl<T> Items<T> {
    ghost use Rattle.std.specs.Borrow.{sem};
    ghost use Rattle.rc_base.specs.Items.{lends_items};

    /// An empty list, which takes no memory.
    pub fn new(alloc: Global) -> Items<T>
        ensures { result ≡ [] }
    {
        Items {
            items: Vec::new(alloc),
        }
    }

    /// An empty list. The room that is asked for only saves growth: contracts see a list's values and not its room. What must not run out of
    /// room holds a `Vec` or a `VecDeque`, whose capacity contracts name, and makes the list of it.
    pub fn with_capacity(alloc: Global, capacity: usize) -> Result<Items<T>, AllocError>
        ensures empty { IfOk result (λ v. v ≡ []) }
        ensures succeeds { capacity ≡ 0 → IsOk result }
    {
        Ok(Items {
            items: Vec::with_capacity(alloc, capacity)?,
        })
    }

    /// Asks for room for this many values more, as `with_capacity` does. The list is the same, whatever comes of it.
    pub fn reserve(&mut self, additional: usize) -> Result<(), AllocError>
        ensures { self.new ≡ self.old }
    {
        self.items.reserve(additional)
    }

    /// The elements of a `Vec`.
    pub fn from_vec(items: Vec<T>) -> Items<T>
        ensures { result ≡ items.items }
    {
        Items { items }
    }

    /// The `Vec` that holds the elements.
    pub fn into_vec(self) -> Vec<T>
        ensures { result.items ≡ self }
    {
        let Items { items } = self;
        items
    }

    /// The values in order, to read.
    pub fn as_slice(&self) -> &[T]
        ensures { result.now ≡ self.now }
    {
        self.items.as_slice()
    }

    /// The values in order, to write over.
    pub fn as_mut_slice(&mut self) -> &mut [T]
        ensures* writes_back { sem 𝓛 (lends_items T.row self.entry result) }
        ensures value { result.now ≡ self.old }
    {
        self.items.as_mut_slice()
    }

    /// How many values the list has.
    pub fn len(&self) -> usize
        ensures { result ≡ length self.now }
    {
        self.items.len()
    }

    /// Whether the list has no value.
    pub fn is_empty(&self) -> bool
        ensures { result ≡ (length self.now == 0) }
    {
        self.items.is_empty()
    }

    /// Adds a value at the end. Where there is no memory for it the list is unchanged and the value comes back.
    pub fn push(&mut self, value: T) -> Result<(), AllocFailed<T>>
        ensures items { self.new ≡ (if is_ok result then self.old ++ value ∷ [] else self.old) }
        ensures value_returned { IfErr result (λ y. y.value ≡ value) }
    {
        self.items.push(value)
    }

    /// Moves all values of another list to the end. Where there is no memory for them the list is unchanged, and they are dropped.
    pub fn append(&mut self, mut other: Items<T>) -> Result<(), AllocError>
    where
        T: Drop,
        ensures { self.new ≡ (if is_ok result then self.old ++ other else self.old) }
    {
        self.items.append(&mut other.items)
    }
}

impl<T: Clone> Clone for Items<T> {
    ghost use Rattle.std.specs.List.{AllZip};
    ghost use Rattle.std.specs.Prelude.{◌≡◌, length};

    ghost is_clone = { λ v w. AllZip T.is_clone v w × (length w ≡ length v) };

    fn clone(&self) -> Result<Items<T>, AllocError> {
        Ok(Items {
            items: self.items.clone()?,
        })
    }
}

impl<T: PartialEq> PartialEq for Items<T> {
    ghost use Rattle.std.specs.Cmp.Lexicographic.{pointwise, lists_per};

    ghost eq = { λ x y. pointwise T.eq x y };

    ghost laws = { lists_per T.laws };

    fn eq(&self, other: &Items<T>) -> bool {
        self.items == other.items
    }
}

impl<T: Copy> Items<T> {
    /// A copy of a slice.
    pub fn from_slice(alloc: Global, items: &[T]) -> Result<Items<T>, AllocError>
        ensures { IfOk result (λ v. v ≡ items.now) }
    {
        Ok(Items {
            items: Vec::from_slice(alloc, items)?,
        })
    }

    /// Adds a copy of a slice at the end. Where there is no memory for it the list is unchanged.
    pub fn extend_from_slice(&mut self, more: &[T]) -> Result<(), AllocError>
        ensures { self.new ≡ (if is_ok result then self.old ++ more.now else self.old) }
    {
        self.items.extend_from_slice(more)
    }
}
