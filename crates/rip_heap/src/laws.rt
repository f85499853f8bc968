ghost use Rattle.rip_heap.specs.Laws.{PutsAreRead, PutsLeaveOthers, FixedTextsStand, LooksAlongPrototypes};

use crate::heap::Heap;

/// What is put is read.
pub fn puts_are_read()
    ensures { PutsAreRead }
{}

/// What is put changes no other property.
pub fn puts_leave_others()
    ensures { PutsLeaveOthers }
{}

/// Each fixed text stands at its span in every world that came of an empty one.
pub fn fixed_texts_stand()
    ensures { FixedTextsStand }
{}

/// A name is looked for on an object, and then from its prototype on in the same way.
pub fn names_are_looked_up_along_prototypes(heap: &Heap)
    ensures { LooksAlongPrototypes heap.now }
{
    let _count = heap.objects();
}
