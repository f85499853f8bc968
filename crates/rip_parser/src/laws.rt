ghost use Rattle.rip_parser.specs.Laws.{AreHeldOnce, HaveNotBoth, HaveOneRefusal, HaveOneTree, HasReading};

/// A script that has tokens has one tree, or it is refused at one place for one cause, and never both.
pub fn trees_are_one()
    ensures some { HasReading }
    ensures tree { HaveOneTree }
    ensures refusal { HaveOneRefusal }
    ensures apart { HaveNotBoth }
{}

/// Each node of a script's tree but its root is the child of one node, once; the root is none.
pub fn nodes_are_held_once()
    ensures { AreHeldOnce }
{}
