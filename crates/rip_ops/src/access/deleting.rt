ghost use Rattle.rip_heap.specs.Growth.{Grows};
ghost use Rattle.rip_ops.specs.Deleting.{IsDeleting, deleted, delete_name, delete_index, deleted_member, delete_element};

use crate::access::base::{Base, base_of};
use rip_base::{Fault, Span, Value};
use rip_heap::{Abrupt, Heap, Key, index_of, is_barred, is_underscored};

/// Takes this member of the base away (ECMA-262 8.12.7, 11.4.1). The operator's value is true where this is done. The
/// host is not asked, and nothing is charged.
pub fn delete(heap: &mut Heap, base: Value, key: Key) -> Result<(), Abrupt>
    ensures deletes { IsDeleting (deleted heap.old base key) heap.old result heap.new }
    ensures grows { Grows heap.old heap.new }
{
    let kind = base_of(heap, base);
    match key {
        Key::Name(name) => delete_name(heap, kind, name),
        Key::Index(index) => delete_index(heap, kind, index),
    }
}

fn delete_name(heap: &mut Heap, base: Base, name: Span) -> Result<(), Abrupt>
    ensures deletes { IsDeleting (delete_name heap.old base name) heap.old result heap.new }
    ensures grows { Grows heap.old heap.new }
{
    match base {
        Base::Nothing => Err(Abrupt::TypeError),
        _ => if is_underscored(heap.pool().get(name)) {
            Err(Abrupt::Fault(Fault::NotInProfile))
        } else {
            delete_member(heap, base, name)
        },
    }
}

fn delete_index(heap: &Heap, base: Base, index: u32) -> Result<(), Abrupt>
    ensures { IsDeleting (delete_index heap.now base index) heap.now result heap.now }
{
    match base {
        Base::Nothing => Err(Abrupt::TypeError),
        Base::Array(array) => delete_element(heap, array, index),
        _ => Err(Abrupt::Fault(Fault::NotInProfile)),
    }
}

fn delete_member(heap: &mut Heap, base: Base, name: Span) -> Result<(), Abrupt>
    ensures deletes { IsDeleting (deleted_member heap.old base name) heap.old result heap.new }
    ensures grows { Grows heap.old heap.new }
{
    match base {
        Base::Nothing => Err(Abrupt::TypeError),
        Base::Array(array) => match index_of(heap, name) {
            Some(index) => delete_element(heap, array, index),
            None => Err(Abrupt::Fault(Fault::NotInProfile)),
        },
        Base::Plain(object) => delete_plain(heap, object, name),
        _ => Err(Abrupt::Fault(Fault::NotInProfile)),
    }
}

fn delete_plain(heap: &mut Heap, object: u32, name: Span) -> Result<(), Abrupt>
    ensures deletes { IsDeleting (deleted_member heap.old (Base.Plain object) name) heap.old result
        heap.new }
    ensures grows { Grows heap.old heap.new }
{
    if is_barred(heap, name, heap.class(object)) {
        return Err(Abrupt::Fault(Fault::NotInProfile));
    }
    heap.remove(object, name);
    Ok(())
}

fn delete_element(heap: &Heap, array: u32, index: u32) -> Result<(), Abrupt>
    ensures { IsDeleting (delete_element heap.now array index) heap.now result heap.now }
{
    if index < heap.count(array) {
        Err(Abrupt::Fault(Fault::Hole))
    } else {
        Ok(())
    }
}
