ghost use Rattle.rip_convert.specs.Told.{CallsAreTold, ListsAreTold};

/// A law, and no work: the text that a call comes to is that of a call of its name, whose arguments are data that may be those
/// of a call; where they are an array, they are a list of data.
pub fn calls_are_told()
    ensures calls { CallsAreTold }
    ensures lists { ListsAreTold }
{}
