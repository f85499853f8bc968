ghost use Rattle.std.specs.Prelude.{◌≡◌, ◌↔◌, ◌+◌, ◌-◌, ◌<◌, ◌≤◌, [], ◌∷◌, ◌++◌, true, false, length, IsSome, IfOk, IfErr, OnOk, OnErr, option_map, slice_get, nat_eq, vec_len, vec_capacity};
ghost use Rattle.std.specs.HashSet.{IsUnique, contains};
ghost use Rattle.std.specs.Option.{option_copied, option_copied_mut};
ghost use Rattle.std.specs.List.{position_or_len};
ghost use Rattle.std.specs.Borrow.{sem};

use crate::refused::InsertRefused;
use indexmap::IndexSet;
use rip_base::NoMemory;
use std::alloc::{AllocError, Global};

/// The most sessions that are opened in a run.
pub const MOST_SESSIONS: usize = 1_000_000;

/// Sessions in the order of their opening, each with an identifier of its own. An ordinal counts them from 1.
#[derive(Drop)]
pub struct Table<T> {
    ids: IndexSet<u128>,
    values: Vec<T>,
    ended: Vec<bool>,
    live: u32,
    limit: u32,
}

impl<T: Drop> Table<T> {
    ghost use Rattle.rip_table.specs.Table.{IsTable, ids, values, most_live, live_count, place_of, at_ordinal, is_live_at, live_value, any_session, live_session, Opens, Ends, IsSame, value_of};
    ghost use Rattle.rip_table.specs.Lending.{LendsPlace, LendsSession};

    /// A table in which so many sessions may be live.
    pub fn make(alloc: Global, limit: u32) -> Result<Table<T>, NoMemory>
        ensures table { IfOk result IsTable }
        ensures empty { IfOk result (λ table. ids table ≡ []) }
        ensures most_live { IfOk result (λ table. most_live table ≡ limit) }
    {
        Ok(Table {
            ids: IndexSet::new(alloc),
            values: Vec::new(alloc),
            ended: Vec::new(alloc),
            live: 0,
            limit,
        })
    }

    /// How many sessions were ever put in.
    pub fn count(&self) -> u32
        requires { IsTable self.now }
        ensures { result ≡ length (ids self.now) }
    {
        self.values.len() as u32
    }

    /// How many sessions are live.
    pub fn live(&self) -> u32
        requires { IsTable self.now }
        ensures live { result ≡ live_count self.now }
        ensures within { result ≤ most_live self.now }
    {
        self.live
    }

    /// The ordinal of a session, live or ended.
    pub fn ordinal(&self, id: u128) -> Option<u32>
        requires { IsTable self.now }
        ensures { result ≡ option_map (λ place. place + 1) (place_of self.now id) }
    {
        let place = self.ids.get_index_of(&id)?;
        Some(place as u32 + 1)
    }

    /// The identifier of a session, live or ended.
    pub fn id(&self, ordinal: u32) -> Option<u128>
        ensures { result ≡ at_ordinal (slice_get (ids self.now)) ordinal }
    {
        let place = (ordinal as usize).checked_sub(1)?;
        self.ids.get_index(place).copied()
    }

    /// The value of a session, live or ended.
    pub fn any(&self, id: u128) -> Option<&T>
        ensures { option_copied result ≡ any_session self.now id }
    {
        let place = self.ids.get_index_of(&id)?;
        self.values.get(place)
    }

    /// The value of a session, live or ended.
    pub fn any_at(&self, ordinal: u32) -> Option<&T>
        ensures { option_copied result ≡ at_ordinal (slice_get (values self.now)) ordinal }
    {
        let place = (ordinal as usize).checked_sub(1)?;
        self.values.get(place)
    }

    /// The value of a live session.
    pub fn at(&self, ordinal: u32) -> Option<&T>
        ensures { option_copied result ≡ at_ordinal (live_value self.now) ordinal }
    {
        let place = (ordinal as usize).checked_sub(1)?;
        if self.is_live_at(place) {
            self.values.get(place)
        } else {
            None
        }
    }

    /// The value of a live session, to be changed.
    pub fn at_mut(&mut self, ordinal: u32) -> Option<&mut T>
        ensures* writes_back { sem 𝓛 (LendsPlace T.row self.entry (ordinal - 1) result) }
        ensures value { option_copied_mut result ≡ at_ordinal (live_value self.old) ordinal }
    {
        let place = (ordinal as usize).checked_sub(1)?;
        self.live_mut(place)
    }

    /// The value of a live session.
    pub fn get(&self, id: u128) -> Option<&T>
        ensures { option_copied result ≡ live_session self.now id }
    {
        let place = self.ids.get_index_of(&id)?;
        if self.is_live_at(place) {
            self.values.get(place)
        } else {
            None
        }
    }

    /// The value of a live session, to be changed.
    pub fn get_mut(&mut self, id: u128) -> Option<&mut T>
        ensures* writes_back { sem 𝓛 (LendsSession T.row self.entry id result) }
        ensures value { option_copied_mut result ≡ live_session self.old id }
    {
        let place = self.ids.get_index_of(&id)?;
        self.live_mut(place)
    }

    fn live_mut(&mut self, place: usize) -> Option<&mut T>
        ensures* writes_back { sem 𝓛 (LendsPlace T.row self.entry place result) }
        ensures value { option_copied_mut result ≡ live_value self.old place }
    {
        if self.is_live_at(place) {
            self.values.get_mut(place)
        } else {
            None
        }
    }

    fn is_live_at(&self, place: usize) -> bool
        ensures { result ≡ is_live_at self.now place }
    {
        match self.ended.get(place) {
            Some(ended) => !*ended,
            None => false,
        }
    }

    /// Puts a live session behind the others, and answers its ordinal.
    pub fn insert(&mut self, alloc: Global, id: u128, v: T) -> Result<u32, InsertRefused<T>>
        requires { IsTable self.old }
        ensures table { IsTable self.new }
        ensures full { (result ≡ Err (InsertRefused.Full v)) ↔
            (most_live self.old ≤ live_count self.old) }
        ensures spent { (result ≡ Err (InsertRefused.Spent v)) ↔
            ((live_count self.old < most_live self.old) × (1000000 ≤ length (ids self.old))) }
        ensures clash { (result ≡ Err (InsertRefused.Clash v)) ↔
            ((live_count self.old < most_live self.old)
            × (length (ids self.old) < 1000000) × IsSome (place_of self.old id)) }
        ensures returned { IfErr result (λ refused. value_of refused ≡ v) }
        ensures ordinal { IfOk result (λ ordinal. ordinal ≡ length (ids self.old) + 1) }
        ensures opens { OnOk result (Opens self.old self.new id v) }
        ensures err { OnErr result (IsSame self.old self.new) }
    {
        if self.live >= self.limit {
            return Err(InsertRefused::Full(v));
        }
        if self.values.len() >= MOST_SESSIONS {
            return Err(InsertRefused::Spent(v));
        }
        if self.ids.get_index_of(&id).is_some() {
            return Err(InsertRefused::Clash(v));
        }
        if add_id(&mut self.ids, &mut self.values, &mut self.ended, id).is_err() {
            return Err(InsertRefused::Memory(v));
        }
        self.values.push(v).unwrap();
        self.ended.push(false).unwrap();
        self.live += 1;
        Ok(self.values.len() as u32)
    }

    /// Ends a live session. Its value stays.
    pub fn end(&mut self, id: u128)
        requires table { IsTable self.old }
        requires live { IsSome (live_session self.old id) }
        ensures table { IsTable self.new }
        ensures ends { Ends self.old self.new (position_or_len (nat_eq id) (ids self.old)) }
    {
        if let Some(place) = self.ids.get_index_of(&id) {
            self.end_place(place);
        }
    }

    /// Ends a live session, by its ordinal. Its value stays.
    pub fn end_at(&mut self, ordinal: u32)
        requires table { IsTable self.old }
        requires live { IsSome (at_ordinal (live_value self.old) ordinal) }
        ensures table { IsTable self.new }
        ensures ends { Ends self.old self.new (ordinal - 1) }
    {
        self.end_place(ordinal as usize - 1);
    }

    fn end_place(&mut self, place: usize)
        requires table { IsTable self.old }
        requires live { is_live_at self.old place ≡ true }
        ensures table { IsTable self.new }
        ensures ends { Ends self.old self.new place }
    {
        self.ended[place] = true;
        self.live -= 1;
    }
}

/// Adds an identifier, and takes room for one value more and whether it has ended.
fn add_id<T>(
    ids: &mut IndexSet<u128>,
    values: &mut Vec<T>,
    ended: &mut Vec<bool>,
    id: u128,
) -> Result<(), AllocError>
    requires distinct { IsUnique nat_eq ids.old }
    requires absent { contains nat_eq ids.old id ≡ false }
    ensures added { OnOk result (ids.new.keys ≡ ids.old.keys ++ id ∷ []) }
    ensures err { OnErr result (ids.new.keys ≡ ids.old.keys) }
    ensures distinct { IsUnique nat_eq ids.new }
    ensures values { values.new.items ≡ values.old.items }
    ensures ended { ended.new.items ≡ ended.old.items }
    ensures value_room { OnOk result (vec_len values.new < vec_capacity values.new) }
    ensures ended_room { OnOk result (vec_len ended.new < vec_capacity ended.new) }
{
    values.reserve(1)?;
    ended.reserve(1)?;
    ids.insert(id)?;
    Ok(())
}
