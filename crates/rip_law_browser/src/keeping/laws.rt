ghost use Rattle.rip_law_browser.specs.Laws.{CallsStayInRange, LimitsStay};

/// A law, and no work: no answer of a browser changes the limit of the nodes of its document, nor that of the bytes of the calls
/// that wait.
pub fn limits_stay()
    ensures { LimitsStay }
{}

/// A law, and no work: where all calls that were made have the text of a call in range, they have after each answer of a
/// browser too.
pub fn calls_stay_in_range()
    ensures { CallsStayInRange }
{}
