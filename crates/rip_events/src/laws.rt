ghost use Rattle.rip_events.specs.Laws.{CallsAreInOrder, PhasesAreInOrder, RemovedAreNotCalled, AddedAreNotCalled, StoppedGoNoFurther, NoneIsLeftOut};

/// The calls of a flow come in the order of its stations, and at each station in the order of registration, so that
/// each listener is called at most once at a station.
pub fn calls_are_in_order()
    ensures { CallsAreInOrder }
{}

/// The calls of a flow come in the order of their phases: 1, 2, 3.
pub fn phases_are_in_order()
    ensures { PhasesAreInOrder }
{}

/// Each listener that a flow calls stands when it is called, so that one that was removed before its turn is not.
pub fn removed_are_not_called()
    ensures { RemovedAreNotCalled }
{}

/// A listener that is registered while a flow is at a station is not called at this visit of the station.
pub fn added_are_not_called()
    ensures { AddedAreNotCalled }
{}

/// A flow that was stopped calls nothing behind the station at hand.
pub fn stopped_go_no_further()
    ensures { StoppedGoNoFurther }
{}

/// A listener that stands, was there when its station was reached and has not had its turn is called next, or one before
/// it is: none is left out, unless the flow was stopped before its station.
pub fn none_is_left_out()
    ensures { NoneIsLeftOut }
{}
