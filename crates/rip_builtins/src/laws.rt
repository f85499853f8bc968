ghost use Rattle.rip_builtins.specs.Laws.{FindsFirstPlaces};

/// A text is found at the first place at which it stands.
pub fn texts_are_found_first()
    ensures { FindsFirstPlaces }
{}
