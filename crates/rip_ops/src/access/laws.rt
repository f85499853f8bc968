ghost use Rattle.rip_ops.specs.AccessLaws.{WrittenIsRead, WrittenToArrayIsRead};

use rip_heap::puts_are_read;

/// What is written to a plain object is read.
pub fn written_members_are_read()
    ensures { WrittenIsRead }
{
    puts_are_read();
}

/// What is written to an array is read.
pub fn written_elements_are_read()
    ensures { WrittenToArrayIsRead }
{}
