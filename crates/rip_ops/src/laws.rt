ghost use Rattle.rip_ops.specs.Laws.{FollowsPrototypes};

use rip_heap::Heap;

/// `instanceof` goes from an object to its prototype, and from there on in the same way.
pub fn instances_follow_prototypes(heap: &Heap)
    ensures { FollowsPrototypes heap.now }
{
    let _count = heap.objects();
}
