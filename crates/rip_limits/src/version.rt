/// The version of a manifest.
#[derive(Clone, Copy, Debug, PartialEq, Eq)]
pub enum Version {
    /// Three members: `version`, `functions` and `limits`.
    One,
    /// Five members: `version`, `language`, `wire`, `functions` and `limits`.
    Two,
}

/// The version of the script language in which a page's scripts are judged and run.
#[derive(Clone, Copy, Debug, PartialEq, Eq)]
pub enum Language {
    /// The language of each manifest of version 1.
    One,
    /// All of language 1, and what is added to it.
    Two,
}

/// The version of what a browser reports.
#[derive(Clone, Copy, Debug, PartialEq, Eq)]
pub enum Wire {
    /// The wire of each manifest of version 1.
    One,
    /// All items of wire 1, and those that are added to them.
    Two,
}
