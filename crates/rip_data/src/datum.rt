use rip_base::{Units, Whole};

/// A value of JSON (RFC 8259 section 3) whose numbers are whole.
///
/// `specs/Datum.antt` says what it stands for (`tree_of`), and when it is well made (`IsDatum`): its texts are
/// UTF-16 and its fields stand in the order of their names' UTF-8 bytes, each name once. Everything that
/// [`read_datum`](crate::read_datum) gives is well made.
#[cycle(datum)]
#[derive(Drop)]
pub enum Datum {
    Null,
    Bool(bool),
    Num(Whole),
    Text(Units),
    List(DatumList),
    Fields(DatumFields),
}

/// The elements of an array, in order (RFC 8259 section 5).
#[cycle(datum)]
#[derive(Drop)]
pub struct DatumList {
    pub items: Vec<Datum>,
}

/// The members of an object, names and values (RFC 8259 section 4).
#[cycle(datum)]
#[derive(Drop)]
pub struct DatumFields {
    pub fields: Vec<(Units, Datum)>,
}
