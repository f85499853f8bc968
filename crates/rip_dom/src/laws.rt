ghost use Rattle.rip_dom.specs.Laws.{NumbersAreNew, PutsAreRead, PutsLeaveOthers};

/// What is put before a place is read before it.
pub fn puts_are_read()
    ensures { PutsAreRead }
{}

/// A node that is put in stands where it was put, and other lists stay but where the node left.
pub fn puts_leave_others()
    ensures { PutsLeaveOthers }
{}

/// A new node has a number that no node had, and no move gives a number back.
pub fn numbers_are_new()
    ensures { NumbersAreNew }
{}
