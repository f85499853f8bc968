ghost use Rattle.rip_automaton.specs.Insertion.{EndsThere, GoesOnWithOthers, InsertedBeforeOffending, RefusedOnItsLine, ThrowTakesNoLineEnd};
ghost use Rattle.rip_automaton.specs.Laws.{EndIsLast, EveryScriptIsTold, GoesOnBehindName, GoesOnBehindPostfix, RefusedBeginsNone, ScriptsAreToldOnce, TakenBeginsOne, TakenIsScript};

/// The machine takes every script and tells what is told of its body; so the body of a script is told once, whatever
/// derives it; and no script begins with lexemes that the machine refuses.
pub fn scripts_are_told_once()
    ensures told { EveryScriptIsTold }
    ensures once { ScriptsAreToldOnce }
    ensures refused { RefusedBeginsNone }
{}

/// The machine takes nothing but scripts to the end; what it has taken begins a script, so that it refuses a lexeme
/// exactly where no script goes on with it; and behind the end nothing is open.
pub fn scripts_alone_are_taken()
    ensures script { TakenIsScript }
    ensures viable { TakenBeginsOne }
    ensures last { EndIsLast }
{}

/// The words of which the grammar says that they continue an expression are those with which the machine goes on in one
/// behind a line end.
pub fn continuing_words_are_taken()
    ensures name { GoesOnBehindName }
    ensures postfix { GoesOnBehindPostfix }
{}

/// Where a statement may end, `;` is inserted exactly as the standard has it (ECMA-262 7.9.1): before an offending token
/// that is `}` or the end or has a line end before it, and before no other.
pub fn semicolons_are_inserted()
    ensures inserted { InsertedBeforeOffending }
    ensures ends { EndsThere }
    ensures refused { RefusedOnItsLine }
    ensures others { GoesOnWithOthers }
    ensures throw { ThrowTakesNoLineEnd }
{}
