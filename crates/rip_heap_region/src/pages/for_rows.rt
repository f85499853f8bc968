ghost use Rattle.std.specs.Prelude.{◌≡◌};
ghost use Rattle.rip_heap_region.specs.Pages.{for_row, with_number};

/// One of the rows of a region.
#[derive(Clone, Copy, Debug, PartialEq, Eq)]
pub enum Row {
    Objects,
    Properties,
    Elements,
    Scopes,
    Bindings,
}

/// A number for each row.
#[derive(Clone, Copy, Debug)]
pub(crate) struct ForRows {
    pub objects: u32,
    pub properties: u32,
    pub elements: u32,
    pub scopes: u32,
    pub bindings: u32,
}

impl ForRows {
    /// None for each.
    pub const NONE: ForRows = ForRows {
        objects: 0,
        properties: 0,
        elements: 0,
        scopes: 0,
        bindings: 0,
    };

    /// The number of that row.
    pub fn of(&self, row: Row) -> u32
        ensures { result ≡ for_row row self.now }
    {
        match row {
            Row::Objects => self.objects,
            Row::Properties => self.properties,
            Row::Elements => self.elements,
            Row::Scopes => self.scopes,
            Row::Bindings => self.bindings,
        }
    }

    /// Gives that row the number.
    pub fn set(&mut self, row: Row, number: u32)
        ensures { self.new ≡ with_number row number self.old }
    {
        match row {
            Row::Objects => self.objects = number,
            Row::Properties => self.properties = number,
            Row::Elements => self.elements = number,
            Row::Scopes => self.scopes = number,
            Row::Bindings => self.bindings = number,
        }
    }
}
