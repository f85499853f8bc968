//! Laws of the store, as contracts.
ghost use Rattle.rip_store.specs.Kept.{StaysKept};
ghost use Rattle.rip_store.specs.Laws.{KeptIsFound, RemovedIsAbsent, OthersStay, PutIsGot, TakenIsGone, RefusalLeaves, StoreStays, UnknownIsNoFunction, ArgumentsAreNotOfTheForm};

/// What is kept at a place is found there.
pub fn kept_is_found()
    ensures { KeptIsFound }
{}

/// At a place that was given up nothing is found.
pub fn removed_is_absent()
    ensures { RemovedIsAbsent }
{}

/// A change leaves what every other place holds.
pub fn others_stay()
    ensures { OthersStay }
{}

/// What was put is got, by functions of one prefix.
pub fn put_is_got()
    ensures { PutIsGot }
{}

/// What was taken is gone.
pub fn taken_is_gone()
    ensures { TakenIsGone }
{}

/// A refusal is told, and leaves the store.
pub fn refusal_leaves()
    ensures { RefusalLeaves }
{}

/// A call leaves the places in order, each once.
pub fn store_stays()
    ensures { StoreStays }
{}

/// A call whose args are a list that `read_datum` accepts leaves a store of at most 4,096 places, in order, each with a
/// datum that it accepts, and its reply is one.
pub fn stays_kept()
    ensures { StaysKept }
{}

/// The error `unknown` comes exactly where no function has the name.
pub fn unknown_is_no_function()
    ensures { UnknownIsNoFunction }
{}

/// The error `arguments` comes exactly where the args are not of the form that the function asks for.
pub fn arguments_are_not_of_the_form()
    ensures { ArgumentsAreNotOfTheForm }
{}
