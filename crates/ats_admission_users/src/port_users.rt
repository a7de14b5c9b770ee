//! The paths that use each port.

ghost use Rattle.std.specs.Prelude.{◌≡◌, ◌≢◌, ℕ, ◌+◌, ◌<◌, ◌≤◌, List, [], ◌∷◌, ◌++◌, length, slice_index_or, take, All};
ghost use Rattle.std.specs.Prelude.{AllPairs, IfSome, IfNone, IfOk, OnOk, OnErr};
ghost use Rattle.std.specs.Global.{Vec};
ghost use Rattle.std.specs.List.{remove};
ghost use Rattle.ats_admission_users.specs.Users.{IsHop, ListsPaths, entry_at, users_of};
ghost use Rattle.ats_admission_users.specs.declared.entry.Entry.{Entry};
ghost use Rattle.ats_admission_users.specs.Lists.{items_of, AllDiffer, AreSlots, AreUsed, EntriesDiffer, HasRoom};
ghost use Rattle.ats_admission_users.specs.Lists.{Enters, Leaves, Tells};

use crate::entry::Entry;
use std::alloc::{AllocError, Global};
use std::marker::Model;

/// The most paths.
pub const MAX_PATHS: usize = 4096;

/// Paths over the ports of a topology, numbered from 0 in the order in which they came; for each port the numbers of
/// those that have it, and the hops at which they do, are found at once. Each path has a slot, which it keeps, and the
/// lists of ports tell slots: so when a path is taken out, no entry of another changes. A later path may have its slot.
/// Contracts see the slots and the lists, and say of which paths they are (`ListsPaths`).
#[derive(Drop)]
pub struct PortUsers {
    used: usize,
    slots: Vec<u32>,
    places: Vec<u32>,
    lists: Vec<Vec<Entry>>,
}

impl Model for PortUsers {
    ghost use Rattle.std.specs.Prelude.{take};
    ghost use Rattle.ats_admission_users.specs.Users.{UsersState};

    ghost Value = { UsersState };

    ghost use Rattle.ats_admission_users.specs.Lists.{items_of, AreUsed};

    ghost view = { λ u. record { slots = take u.used u.slots.items; lists = items_of u.lists.items } };

    ghost invariant = { λ u. AreUsed u.used u.slots.items u.places.items };
}

impl PortUsers {
    /// No paths over so many ports. `AllocError` where memory runs out.
    pub fn new(alloc: Global, ports: usize) -> Result<Self, AllocError>
        ensures { IfOk result (λ users. ListsPaths ports [] users) }
    {
        Ok(PortUsers {
            used: 0,
            slots: Vec::new(alloc),
            places: Vec::new(alloc),
            lists: empty_lists(alloc, ports)?,
        })
    }

    /// Adds a path, which has no port twice, at the end. `AllocError` leaves all as it was.
    pub fn push(&mut self, path: &[u32]) -> Result<(), AllocError>
        requires ports { All (λ p. p < length self.old.lists) path.now }
        requires apart { AllPairs (λ p q. p ≢ q) path.now }
        requires room { length self.old.slots < MAX_PATHS }
        ensures ok { OnOk result ((ports : ℕ) (paths : List (List ℕ)) → ListsPaths ports paths self.old
            → ListsPaths ports (paths ++ path.now ∷ []) self.new) }
        ensures err { OnErr result (self.new ≡ self.old) }
    {
        make_room(&mut self.lists, path)?;
        let slot = free_slot(&mut self.slots, &mut self.places, self.used)?;
        enter(&mut self.lists, path, slot);
        self.used += 1;
        Ok(())
    }

    /// Takes out the path with this number, which has to be the one given. The others keep their order. It takes no
    /// memory.
    pub fn take(&mut self, number: u32, path: &[u32])
        requires number { number < length self.old.slots }
        ensures { (ports : ℕ) (paths : List (List ℕ)) → ListsPaths ports paths self.old
            → slice_index_or paths number [] ≡ path.now → ListsPaths ports (remove paths number) self.new }
    {
        let slot = free(&mut self.slots, &mut self.places, number);
        leave(&mut self.lists, path, slot);
        self.used -= 1;
    }

    /// How many paths have a port.
    pub fn count(&self, port: u32) -> usize
        requires { port < length self.now.lists }
        ensures listed { result ≡ length (slice_index_or self.now.lists port []) }
        ensures users { (ports : ℕ) (paths : List (List ℕ)) → ListsPaths ports paths self.now
            → result ≡ length (users_of paths port) }
    {
        self.lists[port as usize].len()
    }

    /// The number of one of the paths that have a port, in order.
    pub fn user(&self, port: u32, place: usize) -> u32
        requires port { port < length self.now.lists }
        requires place { place < length (slice_index_or self.now.lists port []) }
        ensures value { (ports : ℕ) (paths : List (List ℕ)) → ListsPaths ports paths self.now
            → result ≡ slice_index_or (users_of paths port) place 0 }
        ensures within { (ports : ℕ) (paths : List (List ℕ)) → ListsPaths ports paths self.now → result < length paths }
    {
        let list = &self.lists[port as usize];
        told(&self.places, list[place].slot)
    }

    /// The hop, counted from 0, at which the path that `user` tells for this place has the port.
    pub fn hop(&self, port: u32, place: usize) -> usize
        requires port { port < length self.now.lists }
        requires place { place < length (slice_index_or self.now.lists port []) }
        ensures { (ports : ℕ) (paths : List (List ℕ)) → ListsPaths ports paths self.now
            → IsHop port (slice_index_or paths (slice_index_or (users_of paths port) place 0) []) result }
    {
        self.lists[port as usize][place].hop
    }
}

// So many empty lists.
fn empty_lists(alloc: Global, ports: usize) -> Result<Vec<Vec<Entry>>, AllocError>
    ensures count { IfOk result (λ lists. length lists.items ≡ ports) }
    ensures empty { IfOk result (λ lists. All (λ (list : Vec Entry). list.items ≡ []) lists.items) }
{
    let mut lists = Vec::with_capacity(alloc, ports)?;
    for _ in 0..ports {
        lists.push(Vec::new(alloc))?;
    }
    Ok(lists)
}

// Makes room for one more in the list of each port on a path. `AllocError` where memory runs out.
fn make_room(lists: &mut Vec<Vec<Entry>>, path: &[u32]) -> Result<(), AllocError>
    requires { All (λ p. p < length lists.old.items) path.now }
    ensures items { items_of lists.new.items ≡ items_of lists.old.items }
    ensures room { OnOk result (All (HasRoom lists.new.items) path.now) }
{
    for port in path {
        lists[*port as usize].reserve(1)?;
    }
    Ok(())
}

// Puts the entry of a path with this slot at the end of the list of each port on it. It has no port twice.
fn enter(lists: &mut Vec<Vec<Entry>>, path: &[u32], slot: u32)
    requires ports { All (λ p. p < length lists.old.items) path.now }
    requires apart { AllPairs (λ p q. p ≢ q) path.now }
    requires room { All (HasRoom lists.old.items) path.now }
    ensures { Enters (λ port. entry_at port slot path.now) path.now (items_of lists.old.items)
        (items_of lists.new.items) }
{
    for (hop, port) in path.iter().enumerate() {
        lists[*port as usize].push_reserved(Entry { slot, hop });
    }
}

// Takes a slot out of the list of each port on a path, where none stands twice in a list.
fn leave(lists: &mut Vec<Vec<Entry>>, path: &[u32], slot: u32)
    ensures { All EntriesDiffer (items_of lists.old.items)
        → Leaves slot path.now (items_of lists.old.items) (items_of lists.new.items) }
{
    for port in path {
        leave_at(lists, *port, slot);
    }
}

// Takes a slot out of the list of one port, where none stands twice in a list.
fn leave_at(lists: &mut Vec<Vec<Entry>>, port: u32, slot: u32)
    ensures { All EntriesDiffer (items_of lists.old.items)
        → Leaves slot (port ∷ []) (items_of lists.old.items) (items_of lists.new.items) }
{
    let place = port as usize;
    if place >= lists.len() {
        return;
    }
    if let Some(at) = found_at(&lists[place], slot) {
        lists[place].remove(at);
    }
}

// Where a slot stands in a list; `None` exactly where it does not.
fn found_at(list: &[Entry], slot: u32) -> Option<usize>
    ensures within { IfSome result (λ at. at < length list.now) }
    ensures stands { IfSome result (λ at. (d : Entry) → (slice_index_or list.now at d).slot ≡ slot) }
    ensures none { IfNone result (All (λ (e : Entry). e.slot ≢ slot) list.now) }
{
    for (at, entry) in list.iter().enumerate() {
        if entry.slot == slot {
            return Some(at);
        }
    }
    None
}

// The slot of the next path, at this place: one that is free, or else a new one. `AllocError` changes nothing.
fn free_slot(slots: &mut Vec<u32>, places: &mut Vec<u32>, used: usize) -> Result<u32, AllocError>
    requires used { AreUsed used slots.old.items places.old.items }
    requires room { used < MAX_PATHS }
    ensures ok { OnOk result (AreUsed (used + 1) slots.new.items places.new.items) }
    ensures first { take used slots.new.items ≡ take used slots.old.items }
    ensures slot { IfOk result (λ slot. slice_index_or slots.new.items used 0 ≡ slot) }
    ensures err { OnErr result (AreUsed used slots.new.items places.new.items) }
{
    if used < slots.len() {
        return Ok(slots[used]);
    }
    add_slot(slots, places)
}

// Adds a slot behind all others, whose number is its place. `AllocError` changes nothing.
fn add_slot(slots: &mut Vec<u32>, places: &mut Vec<u32>) -> Result<u32, AllocError>
    requires are { AreSlots slots.old.items places.old.items }
    requires room { length slots.old.items < MAX_PATHS }
    ensures slot { IfOk result (λ slot. slot ≡ length slots.old.items) }
    ensures items { IfOk result (λ slot. slots.new.items ≡ slots.old.items ++ slot ∷ []) }
    ensures ok { OnOk result (AreSlots slots.new.items places.new.items) }
    ensures err_slots { OnErr result (slots.new.items ≡ slots.old.items) }
    ensures err_places { OnErr result (places.new.items ≡ places.old.items) }
{
    slots.reserve(1)?;
    places.reserve(1)?;
    let slot = slots.len() as u32;
    slots.push_reserved(slot);
    places.push_reserved(slot);
    Ok(slot)
}

// Frees the slot at a place, which goes behind all others. That slot.
fn free(slots: &mut Vec<u32>, places: &mut Vec<u32>, number: u32) -> u32
    requires are { AreSlots slots.old.items places.old.items }
    requires number { number < length slots.old.items }
    ensures slot { result ≡ slice_index_or slots.old.items number 0 }
    ensures items { slots.new.items ≡ remove slots.old.items number ++ result ∷ [] }
    ensures told { AreSlots slots.new.items places.new.items }
{
    let slot = slots.remove(number as usize);
    slots.push_reserved(slot);
    tell(places, slots, number as usize);
    slot
}

// Tells the places of the slots from one place on, where those before it are told.
fn tell(places: &mut Vec<u32>, slots: &[u32], from: usize)
    requires few { length slots.now ≤ MAX_PATHS }
    requires differ { AllDiffer slots.now }
    requires inside { All (λ slot. slot < length places.old.items) slots.now }
    requires before { Tells slots.now places.old.items from }
    ensures many { length places.new.items ≡ length places.old.items }
    ensures told { Tells slots.now places.new.items (length slots.now) }
{
    for place in from..slots.len() {
        places[slots[place] as usize] = place as u32;
    }
}

// The place that is told for a slot.
fn told(places: &[u32], slot: u32) -> u32
    ensures { result ≡ slice_index_or places.now slot 0 }
{
    match places.get(slot as usize) {
        Some(place) => *place,
        None => 0,
    }
}
