//! How many references each object has, which doors had more than one when the step began, and have one, and which ends of pipes had some,
//! and have none.
ghost use Rattle.std.specs.Prelude.{◌≡◌, ◌+◌, ◌-◌, ◌<◌, ◌≤◌, ◌++◌, ◌∷◌, ◌||◌, ℕ, [], IsSorted, OnErr, OnOk, Some, cond, if◌then◌else◌, length, true, vec_capacity, vec_len};
ghost use Rattle.std.specs.List.{list_any};
ghost use Rattle.std.specs.Map.{lookup};
ghost use Rattle.std.specs.Ordering.{nat_cmp};
ghost use Rattle.dk_base.specs.declared.object.Obj.{Obj};
ghost use Rattle.indexmap.specs.IndexMap.{KeepsRoom, spare};
ghost use Rattle.spec_records.specs.Words.{count_object, is_object};
ghost use Rattle.unref_notice.specs.declared.counts.TheConstants.{STEP_MAX};
ghost use Rattle.unref_notice.specs.declared.key.Key.{Key};
ghost use Rattle.unref_notice.specs.Counting.{AreMarked, IsStill, count_at, counts_in, fallen_among, fallen_of, gone_among, is_pipe_end, is_touched, same_key, tally_at, went};
ghost use Rattle.unref_notice.specs.Words.{count_of, has_fallen, has_gone, how_many};

use crate::key::{Key, key_of, object_of};
use crate::tally::Tally;
use dk_base::error::NoMemory;
use dk_base::list::Room;
use dk_base::object::Obj;
use indexmap::IndexMap;
use std::alloc::Global;
use std::marker::Model;

/// How many references may come and go in one step: as many as one process has descriptors (256), and as many as are in transit with
/// all calls (16 objects with each of 64).
pub const STEP_MAX: usize = 1280;

/// How many references each object has: doors, ports, and the ends of pipes. Clauses see the count of each object (`counts`), that
/// at the beginning of the step (`opening`), to how many objects references came or went since (`touched`), how many further
/// references may come or go in this step (`left`), which takes no memory, and the doors that the end of a step told (`fallen`).
#[derive(Drop)]
pub struct Counts {
    /// Of each object that is or was counted.
    tallies: IndexMap<Key, Tally>,
    /// The count of each when the step began, of those that are not touched that of now.
    opening: IndexMap<Key, u64>,
    /// The objects to which references came or went since the step began, each once.
    touched: Vec<Key>,
    /// The doors that the end of a step tells.
    fallen: Vec<u32>,
    left: usize,
}

impl Model for Counts {
    ghost use Rattle.std.specs.Prelude.{◌≤◌, ◌+◌, length, vec_capacity};
    ghost use Rattle.indexmap.specs.IndexMap.{spare};
    ghost use Rattle.unref_notice.specs.declared.counts.TheConstants.{STEP_MAX};
    ghost use Rattle.unref_notice.specs.Counting.{AreMarked, IsStill, counts_in};
    ghost use Rattle.unref_notice.specs.Words.{CountsValue};

    ghost Value = { CountsValue };

    ghost view = { λ c. record { counts = counts_in c.tallies.entries; opening = c.opening.entries; touched = length c.touched.items; left = c.left; fallen = c.fallen.items } };

    ghost invariant = { λ c. IsStill (counts_in c.tallies.entries) c.opening.entries c.touched.items × AreMarked c.tallies.entries c.touched.items × (c.left ≤ spare c.tallies) × (length c.touched.items + c.left ≤ spare c.opening) × (length c.touched.items + c.left ≤ vec_capacity c.touched) × (length c.touched.items + c.left ≤ vec_capacity c.fallen) × (length c.touched.items + c.left ≤ STEP_MAX) };
}

/// What is kept of an object.
fn tally_at(tallies: &IndexMap<Key, Tally>, key: Key) -> Tally
    ensures { result ≡ tally_at tallies.now.entries key }
{
    match tallies.get(&key) {
        Some(tally) => *tally,
        None => Tally {
            now: 0,
            touched: false,
        },
    }
}

/// The count of an object now, 0 where it never was counted.
fn now_at(tallies: &IndexMap<Key, Tally>, key: Key) -> u64
    ensures { result ≡ count_at (counts_in tallies.now.entries) key }
{
    tally_at(tallies, key).now
}

/// The count of an object when the step began, 0 where it never was counted.
fn count_at(opening: &IndexMap<Key, u64>, key: Key) -> u64
    ensures { result ≡ count_at opening.now.entries key }
{
    match opening.get(&key) {
        Some(count) => *count,
        None => 0,
    }
}

/// This is kept of an object from now on. One of which something was kept is looked up once.
fn write<T: Drop>(kept: &mut IndexMap<Key, T>, key: Key, value: T)
    requires spare { 0 < spare kept.old }
    ensures lookup { (k : Key) → lookup (same_key k) kept.new.entries ≡ cond (same_key key k) (Some value) (lookup (same_key k) kept.old.entries) }
    ensures spare { spare kept.old ≤ spare kept.new + 1 }
{
    match kept.get_mut(&key) {
        Some(place) => *place = value,
        None => {
            kept.insert(key, value).unwrap();
        }
    }
}

/// The object of this key has so many references now, and is among those that are touched. Whether it was so far is given.
fn recount(
    tallies: &mut IndexMap<Key, Tally>,
    touched: &mut Vec<Key>,
    key: Key,
    was_touched: bool,
    now: u64,
)
    requires marked { AreMarked tallies.old.entries touched.old.items }
    requires was { was_touched ≡ is_touched touched.old.items key }
    requires spare { 0 < spare tallies.old }
    requires room { vec_len touched.old < vec_capacity touched.old }
    ensures tallies { (k : Key) → tally_at tallies.new.entries k ≡ (if same_key key k then record { now = now; touched = true } else tally_at tallies.old.entries k) }
    ensures touched { (k : Key) → is_touched touched.new.items k ≡ (if same_key key k then true else is_touched touched.old.items k) }
    ensures marked { AreMarked tallies.new.entries touched.new.items }
    ensures spare { spare tallies.old ≤ spare tallies.new + 1 }
    ensures more { vec_len touched.new ≤ vec_len touched.old + 1 }
    ensures capacity { vec_capacity touched.new ≡ vec_capacity touched.old }
{
    if !was_touched {
        touched.push_reserved(key);
    }
    write(tallies, key, Tally { now, touched: true });
}

/// The objects that are touched had as many references when the step began as they have now, and are touched no more.
fn settle(tallies: &mut IndexMap<Key, Tally>, opening: &mut IndexMap<Key, u64>, touched: &[Key])
    requires room { length touched.now ≤ spare opening.old }
    requires still { IsStill (counts_in tallies.old.entries) opening.old.entries touched.now }
    requires marked { AreMarked tallies.old.entries touched.now }
    ensures counts { counts_in tallies.new.entries ≡ counts_in tallies.old.entries }
    ensures opening { (k : Key) → count_at opening.new.entries k ≡ count_at (counts_in tallies.new.entries) k }
    ensures marked { AreMarked tallies.new.entries [] }
{
    for key in touched {
        let now = now_at(tallies, *key);
        write(opening, *key, now);
        tallies
            .insert(
                *key,
                Tally {
                    now,
                    touched: false,
                },
            )
            .unwrap();
    }
}

/// The door that an object is, if it had more than one reference and has one.
fn fallen_of(tallies: &IndexMap<Key, Tally>, opening: &IndexMap<Key, u64>, key: Key) -> Option<u32>
    ensures { result ≡ fallen_of (counts_in tallies.now.entries) opening.now.entries key }
{
    match key {
        Key::Door(d) if count_at(opening, key) > 1 && now_at(tallies, key) == 1 => Some(d),
        _ => None,
    }
}

/// The doors among these objects that have fallen to one reference follow what is in `into`.
fn tell(
    tallies: &IndexMap<Key, Tally>,
    opening: &IndexMap<Key, u64>,
    touched: &[Key],
    into: &mut Vec<u32>,
)
    requires { vec_len into.old + length touched.now ≤ vec_capacity into.old }
    ensures items { into.new.items ≡ into.old.items ++ fallen_among (counts_in tallies.now.entries) opening.now.entries touched.now }
    ensures capacity { vec_capacity into.new ≡ vec_capacity into.old }
{
    for key in touched {
        if let Some(d) = fallen_of(tallies, opening, *key) {
            into.push_reserved(d);
        }
    }
}

/// Whether an object is an end of a pipe.
fn is_pipe_end(object: Obj) -> bool
    ensures { result ≡ is_pipe_end object }
{
    match object {
        Obj::PipeIn(_) | Obj::PipeOut(_) => true,
        _ => false,
    }
}

/// Whether an object is an end of a pipe that had references and has none.
fn has_gone(tallies: &IndexMap<Key, Tally>, opening: &IndexMap<Key, u64>, key: Key) -> bool
    ensures { result ≡ went (counts_in tallies.now.entries) opening.now.entries key }
{
    is_pipe_end(object_of(key)) && count_at(opening, key) > 0 && now_at(tallies, key) == 0
}

/// The ends of pipes among these objects that had references and have none follow what is in `into`.
fn tell_gone(
    tallies: &IndexMap<Key, Tally>,
    opening: &IndexMap<Key, u64>,
    touched: &[Key],
    into: &mut Room<Obj>,
)
    requires { length touched.now ≤ into.old.spare }
    ensures { into.new.items ≡ into.old.items ++ gone_among (counts_in tallies.now.entries) opening.now.entries touched.now }
{
    for key in touched {
        if has_gone(tallies, opening, *key) {
            into.push(object_of(*key));
        }
    }
}

impl Counts {
    /// No object is counted, and there is room for none.
    pub fn new(alloc: Global) -> Self
        ensures counts { result.counts ≡ [] }
        ensures opening { result.opening ≡ [] }
    {
        Counts {
            tallies: IndexMap::new(alloc),
            opening: IndexMap::new(alloc),
            touched: Vec::new(alloc),
            fallen: Vec::new(alloc),
            left: 0,
        }
    }

    /// References may come or go so many times in this step, which takes no memory then. Want of memory leaves the counts as they
    /// were.
    pub fn room(&mut self, n: usize) -> Result<(), NoMemory>
        requires { self.old.touched + n ≤ STEP_MAX }
        ensures counts { self.new.counts ≡ self.old.counts }
        ensures opening { self.new.opening ≡ self.old.opening }
        ensures room { OnOk result (n ≤ self.new.left) }
        ensures err { OnErr result (self.new ≡ self.old) }
    {
        let all = self.touched.len() + n;
        if self.tallies.reserve(n).is_err()
            || self.opening.reserve(all).is_err()
            || self.touched.reserve(n).is_err()
            || self.fallen.reserve(all).is_err()
        {
            return Err(NoMemory);
        }
        self.left = n;
        Ok(())
    }

    /// Another reference to an object.
    pub fn up(&mut self, object: Obj)
        requires left { 0 < self.old.left }
        requires few { count_of self.old.counts object < 18446744073709551615 }
        ensures counts { (o : Obj) → count_of self.new.counts o ≡ count_of self.old.counts o + count_object o (object ∷ []) }
        ensures opening { self.new.opening ≡ self.old.opening }
        ensures left { self.old.left ≤ self.new.left + 1 }
    {
        let key = key_of(object);
        let kept = tally_at(&self.tallies, key);
        recount(
            &mut self.tallies,
            &mut self.touched,
            key,
            kept.touched,
            kept.now + 1,
        );
        self.left -= 1;
    }

    /// One reference to an object fewer, if there is one.
    pub fn down(&mut self, object: Obj)
        requires left { 0 < self.old.left }
        ensures counts { (o : Obj) → count_of self.new.counts o ≡ count_of self.old.counts o - count_object o (object ∷ []) }
        ensures opening { self.new.opening ≡ self.old.opening }
        ensures left { self.old.left ≤ self.new.left + 1 }
    {
        let key = key_of(object);
        let kept = tally_at(&self.tallies, key);
        if kept.now > 0 {
            recount(
                &mut self.tallies,
                &mut self.touched,
                key,
                kept.touched,
                kept.now - 1,
            );
            self.left -= 1;
        }
    }

    /// Another reference to each of these objects.
    pub fn up_all(&mut self, objects: &[Obj])
        requires left { length objects.now ≤ self.old.left }
        requires few { (o : Obj) → count_of self.old.counts o + length objects.now ≤ 18446744073709551615 }
        ensures counts { (o : Obj) → count_of self.new.counts o ≡ count_of self.old.counts o + count_object o objects.now }
        ensures opening { self.new.opening ≡ self.old.opening }
        ensures left { self.old.left ≤ self.new.left + length objects.now }
    {
        for object in objects {
            self.up(*object);
        }
    }

    /// One reference fewer to each of these objects.
    pub fn down_all(&mut self, objects: &[Obj])
        requires left { length objects.now ≤ self.old.left }
        ensures counts { (o : Obj) → count_of self.new.counts o ≡ count_of self.old.counts o - count_object o objects.now }
        ensures opening { self.new.opening ≡ self.old.opening }
        ensures left { self.old.left ≤ self.new.left + length objects.now }
    {
        for object in objects {
            self.down(*object);
        }
    }

    /// How many references an object has.
    pub fn count(&self, object: Obj) -> u64
        ensures { result ≡ count_of self.now.counts object }
    {
        now_at(&self.tallies, key_of(object))
    }

    /// A step begins: the counts of its beginning become those of now. Only the objects are looked at that are touched.
    pub fn start_step(&mut self)
        ensures counts { self.new.counts ≡ self.old.counts }
        ensures opening { (o : Obj) → count_of self.new.opening o ≡ count_of self.old.counts o }
        ensures touched { self.new.touched ≡ 0 }
    {
        if self.touched.is_empty() {
            return;
        }
        settle(&mut self.tallies, &mut self.opening, &self.touched);
        self.touched.clear();
        self.left = 0;
    }

    /// The end of a step finds the doors that had more than one reference when it began, and have one now: each once, in the order
    /// of their numbers. Only the objects are looked at that are touched. It takes no memory.
    pub fn end_of_step(&mut self)
        ensures each { (d : ℕ) → how_many d self.new.fallen ≡ (if has_fallen self.old d then 1 else 0) }
        ensures order { IsSorted nat_cmp self.new.fallen }
        ensures few { length self.new.fallen ≤ STEP_MAX }
        ensures same { self.new ≡ record (self.old) { fallen = self.new.fallen } }
    {
        self.fallen.clear();
        tell(
            &self.tallies,
            &self.opening,
            &self.touched,
            &mut self.fallen,
        );
        self.fallen.sort_unstable();
    }

    /// The doors that the end of the step has found.
    pub fn fallen(&self) -> &[u32]
        ensures { result.now ≡ self.now.fallen }
    {
        &self.fallen
    }

    /// The ends of pipes that had references when the step began, and have none now, follow what is in `into`, each once, in any order.
    /// Only the objects are looked at that are touched. It takes no memory.
    pub fn gone(&self, into: &mut Room<Obj>)
        requires { STEP_MAX ≤ into.old.spare }
        ensures each { (o : Obj) → count_object o into.new.items ≡ count_object o into.old.items + (if has_gone self.now o then 1 else 0) }
        ensures members { (o : Obj) → list_any (is_object o) into.new.items ≡ (list_any (is_object o) into.old.items || has_gone self.now o) }
        ensures few { length into.new.items ≤ length into.old.items + STEP_MAX }
    {
        tell_gone(&self.tallies, &self.opening, &self.touched, into);
    }
}
