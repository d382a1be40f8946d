//! `Sequence`, a list that clauses see as its items alone, and the names of its uses.
ghost use Rattle.std.specs.Prelude.{◌≡◌, ℕ, ◌+◌, ◌<◌, ◌≤◌, ◌==◌, List, [], ◌∷◌, ◌++◌, length, slice_get, Some, IfOk, OnOk, OnErr};

use crate::error::{Errno, NoMemory};
use crate::number::{Fd, Tid};
use crate::object::{EventRec, Item, Obj, Pass};
use std::alloc::Global;
use std::marker::Model;

/// Items in order. Clauses see the list itself, so two lists with the same items are equal, however much room either has.
#[derive(Drop)]
pub struct Sequence<T> {
    items: Vec<T>,
}

impl<T> Model for Sequence<T> {
    ghost Value = { List T };

    ghost view = { λ s. s.items.items };
}

impl<T: PartialEq> PartialEq for Sequence<T> {
    ghost use Rattle.std.specs.Cmp.Lexicographic.{pointwise, lists_per};

    ghost eq = { pointwise T.eq };

    ghost laws = { lists_per T.laws };

    fn eq(&self, other: &Self) -> bool {
        self.items == other.items
    }
}

pub type Bytes = Sequence<u8>;

pub type FdList = Sequence<Fd>;

pub type ObjList = Sequence<Obj>;

pub type PassList = Sequence<Pass>;

pub type TidList = Sequence<Tid>;

pub type ItemList = Sequence<Item>;

pub type IdList = Sequence<u32>;

pub type DoorList = Sequence<u32>;

pub type EventList = Sequence<EventRec>;

pub type ErrList = Sequence<Option<Errno>>;

pub type CallList = Sequence<u64>;

pub type CountList = Sequence<u64>;

impl<T: Drop> Sequence<T> {
    /// No item.
    pub fn new(alloc: Global) -> Self
        ensures { result ≡ [] }
    {
        Sequence {
            items: Vec::new(alloc),
        }
    }

    pub fn len(&self) -> usize
        ensures { result ≡ length self.now }
    {
        self.items.len()
    }

    pub fn is_empty(&self) -> bool
        ensures { result ≡ (length self.now == 0) }
    {
        self.items.is_empty()
    }

    pub fn slice(&self) -> &[T]
        ensures { result.now ≡ self.now }
    {
        self.items.as_slice()
    }

    /// Want of memory leaves the list as it was, and drops the item.
    pub fn push(&mut self, item: T) -> Result<(), NoMemory>
        ensures ok { OnOk result (self.new ≡ self.old ++ item ∷ []) }
        ensures err { OnErr result (self.new ≡ self.old) }
    {
        match self.items.push(item) {
            Ok(()) => Ok(()),
            Err(_) => Err(NoMemory),
        }
    }

    /// The list with its room, to be pushed into by calls that can't fail. It takes no memory.
    pub fn into_room(self) -> Room<T>
        ensures { result.items ≡ self }
    {
        let Sequence { items } = self;
        Room { items }
    }
}

impl<T: Copy + Drop> Sequence<T> {
    pub fn from_slice(alloc: Global, items: &[T]) -> Result<Self, NoMemory>
        ensures { IfOk result (λ made. made ≡ items.now) }
    {
        match Vec::from_slice(alloc, items) {
            Ok(items) => Ok(Sequence { items }),
            Err(_) => Err(NoMemory),
        }
    }

    pub fn at(&self, i: usize) -> T
        requires { i < length self.now }
        ensures { slice_get self.now i ≡ Some result }
    {
        self.items[i]
    }

    pub fn copy(&self, alloc: Global) -> Result<Self, NoMemory>
        ensures { IfOk result (λ copy. copy ≡ self.now) }
    {
        Sequence::from_slice(alloc, self.items.as_slice())
    }

    /// Copies of the items follow the list. Want of memory leaves it as it was.
    pub fn append(&mut self, items: &[T]) -> Result<(), NoMemory>
        ensures ok { OnOk result (self.new ≡ self.old ++ items.now) }
        ensures err { OnErr result (self.new ≡ self.old) }
    {
        match self.items.extend_from_slice(items) {
            Ok(()) => Ok(()),
            Err(_) => Err(NoMemory),
        }
    }
}

/// A list that tells how many pushes can't fail. Clauses see its items and that number, `spare`.
#[derive(Drop)]
pub struct Room<T> {
    items: Vec<T>,
}

impl<T> Model for Room<T> {
    ghost use Rattle.std.specs.Prelude.{◌-◌, vec_len, vec_capacity};
    ghost use Rattle.dk_base.specs.Spare.{RoomValue};

    ghost Value = { RoomValue T };

    ghost view = { λ s. record { items = s.items.items; spare = vec_capacity s.items - vec_len s.items } };
}

impl<T: Drop> Room<T> {
    /// No item, and no room that is told. It takes no memory.
    pub fn new(alloc: Global) -> Self
        ensures { result.items ≡ [] }
    {
        Room {
            items: Vec::new(alloc),
        }
    }

    /// No item, and room for `n`.
    pub fn with_room(alloc: Global, n: usize) -> Result<Self, NoMemory>
        ensures empty { IfOk result (λ room. room.items ≡ []) }
        ensures spare { IfOk result (λ room. n ≤ room.spare) }
    {
        match Vec::with_capacity(alloc, n) {
            Ok(items) => Ok(Room { items }),
            Err(_) => Err(NoMemory),
        }
    }

    pub fn len(&self) -> usize
        ensures { result ≡ length self.now.items }
    {
        self.items.len()
    }

    pub fn slice(&self) -> &[T]
        ensures { result.now ≡ self.now.items }
    {
        self.items.as_slice()
    }

    /// No item, and all the room that there was.
    pub fn clear(&mut self)
        ensures items { self.new.items ≡ [] }
        ensures spare { length self.old.items + self.old.spare ≤ self.new.spare }
    {
        self.items.clear();
    }

    /// Room for `n` more. Want of memory leaves the list as it was, with the room that it had at least.
    pub fn reserve(&mut self, n: usize) -> Result<(), NoMemory>
        ensures items { self.new.items ≡ self.old.items }
        ensures spare { OnOk result (n ≤ self.new.spare) }
        ensures kept { self.old.spare ≤ self.new.spare }
    {
        match self.items.reserve(n) {
            Ok(()) => Ok(()),
            Err(_) => Err(NoMemory),
        }
    }

    /// It takes no memory.
    pub fn push(&mut self, item: T)
        requires { 0 < self.old.spare }
        ensures items { self.new.items ≡ self.old.items ++ item ∷ [] }
        ensures spare { self.old.spare ≤ self.new.spare + 1 }
    {
        self.items.push_reserved(item);
    }

    /// The list alone. It takes no memory.
    pub fn into_list(self) -> Sequence<T>
        ensures { result ≡ self.items }
    {
        let Room { items } = self;
        Sequence { items }
    }
}

impl<T: Copy + Drop> Room<T> {
    /// Copies of the items follow the list. It takes no memory.
    pub fn append(&mut self, items: &[T])
        requires { length items.now ≤ self.old.spare }
        ensures items { self.new.items ≡ self.old.items ++ items.now }
        ensures spare { self.old.spare ≤ self.new.spare + length items.now }
    {
        let Ok(()) = self.items.extend_from_slice(items) else {
            unreachable!()
        };
    }
}
