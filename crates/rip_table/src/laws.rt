//! A law of tables, as a contract.
ghost use Rattle.rip_table.specs.Laws.{LentTableStays};

/// A table stays one, whatever is left behind a reference to a value of it.
pub fn lent_table_stays<T>()
    ensures { LentTableStays T }
{}
