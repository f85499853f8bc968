ghost use Rattle.rip_law_syntax.specs.Offending.{OffendingAreOne, OffendingAreRefused, RefusedAreOffending, StandingsAreOne};

/// A law, and no work: bytes that are refused as a page, and are UTF-8, are refused at the first token with which no page
/// goes on, as the tables have it where that stands; bytes that have such a token are refused so. Where a token stands is
/// told by what pages go on with.
pub fn offending_tokens_are_refused()
    ensures offends { RefusedAreOffending }
    ensures refused { OffendingAreRefused }
    ensures one { OffendingAreOne }
    ensures stands { StandingsAreOne }
{}
