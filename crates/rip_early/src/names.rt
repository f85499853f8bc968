ghost use Rattle.std.specs.Prelude.{◌≡◌, [], ◌∷◌, ◌++◌, length, option_map, IfOk, OnOk};
ghost use Rattle.rip_early.specs.Names.{place_in, with_name};
ghost use Rattle.rip_early.specs.Indexed.{names_of, with_any, IsIndexed};

use rip_base::{NoMemory, Units};
use std::alloc::Global;
use std::collections::BTreeMap;

/// The names that a scope binds, each once, in the order in which they were added, and the place of each.
#[derive(Debug, Drop)]
pub(crate) struct Names<'a> {
    pub list: Vec<&'a [u16]>,
    pub places: BTreeMap<&'a [u16], u32>,
}

impl<'a> Names<'a> {
    /// No name yet.
    pub fn new(alloc: Global) -> Names<'a>
        ensures kept { IsIndexed result }
        ensures empty { names_of result ≡ [] }
    {
        Names {
            list: Vec::new(alloc),
            places: BTreeMap::new(alloc),
        }
    }

    /// How many names there are.
    pub fn count(&self) -> u32
        requires { IsIndexed self.now }
        ensures { result ≡ length (names_of self.now) }
    {
        self.list.len() as u32
    }

    /// The place of this name, if it is one of them.
    pub fn place(&self, name: &[u16]) -> Option<u32>
        requires { IsIndexed self.now }
        ensures { result ≡ place_in (names_of self.now) name.now }
    {
        self.places.get(name).copied()
    }

    /// The names themselves, by place.
    pub fn units(&self, alloc: Global) -> Result<Vec<Units>, NoMemory>
        ensures { IfOk result (λ names. names.items ≡ names_of self.now) }
    {
        let mut names = Vec::new(alloc);
        for name in &self.list {
            names.push(Units::from_slice(alloc, name)?)?;
        }
        Ok(names)
    }

    /// Adds a name behind the others, if it is none of them.
    pub fn add(&mut self, name: &'a [u16]) -> Result<(), NoMemory>
        requires { IsIndexed self.old }
        ensures kept { OnOk result (IsIndexed self.new) }
        ensures added { OnOk result (names_of self.new ≡ with_name (names_of self.old) name.now) }
    {
        if self.place(name).is_some() {
            return Ok(());
        }
        self.add_new(name)
    }

    /// Adds a name, if there is one, behind the others, if it is none of them.
    pub fn add_any(&mut self, name: Option<&'a [u16]>) -> Result<(), NoMemory>
        requires { IsIndexed self.old }
        ensures kept { OnOk result (IsIndexed self.new) }
        ensures added { OnOk result
            (names_of self.new ≡ with_any (names_of self.old)
            (option_map (λ n. n.now) name.entry)) }
    {
        match name {
            Some(name) => self.add(name),
            None => Ok(()),
        }
    }

    /// Adds a name behind the others, which is none of them.
    fn add_new(&mut self, name: &'a [u16]) -> Result<(), NoMemory>
        requires kept { IsIndexed self.old }
        requires absent { place_in (names_of self.old) name.now ≡ None }
        ensures kept { OnOk result (IsIndexed self.new) }
        ensures added { OnOk result (names_of self.new ≡ names_of self.old ++ name.now ∷ []) }
    {
        let place = self.list.len();
        if place >= u32::MAX as usize {
            return Err(NoMemory);
        }
        self.places.insert(name, place as u32)?;
        self.list.push(name)?;
        Ok(())
    }
}
