use rip_base::{List, Units};

/// What a function does with the data under its prefix.
#[derive(Clone, Copy, Debug, PartialEq, Eq)]
pub enum Operation {
    /// `[key]`: the datum at the key, or null.
    Get,
    /// `[key,v]`: keeps the datum at the key, and replies true.
    Put,
    /// `[key,n]`: adds to the number at the key, where an absent one counts as 0, and replies the sum.
    Add,
    /// `[key]`: the datum at the key, which is given up, or null.
    Take,
    /// `[key,v]`: adds to the end of the list at the key, where an absent one counts as `[]`, and replies its length.
    Push,
    /// `[]`: the keys under the prefix, in order of their bytes.
    List,
}

/// A function of an application. Its prefix and the key of a call together name a place of the store.
#[derive(Debug, Drop)]
pub struct Function {
    pub name: Units,
    pub op: Operation,
    pub prefix: Units,
}

/// The functions of an application, in which no two have one name.
pub type Functions = List<Function>;
