ghost use Rattle.rip_forms.specs.Laws.{ClicksAreUndone, StatesAreRead};

/// What is set of a control is read as it was set, and no other control's state changes.
pub fn states_are_read()
    ensures { StatesAreRead }
{}

/// A click that is undone leaves `checked` as it was before the click, whatever was set since.
pub fn clicks_are_undone()
    ensures { ClicksAreUndone }
{}
