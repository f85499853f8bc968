ghost use Rattle.rip_words.specs.Commands.{TaskIsOne};

/// Words ask for one thing at most.
pub fn words_are_one()
    ensures { TaskIsOne }
{}
