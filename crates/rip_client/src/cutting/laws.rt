ghost use Rattle.rip_client.specs.Cutting.{CutIsOne};

/// A list is cut in one way.
pub fn cut_is_one()
    ensures { CutIsOne }
{}
