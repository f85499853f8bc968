ghost use Rattle.std.specs.Prelude.{◌≡◌, ◌+◌, nat_le, if◌then◌else◌};
ghost use Rattle.rip_base.specs.declared.value.Limit.TheVariants.{Cells};
ghost use Rattle.rip_base.specs.declared.value.Value.TheVariants.{Num};
ghost use Rattle.rip_heap.specs.Errors.{new_error, error_made, cost_of_error};
ghost use Rattle.rip_heap.specs.Growth.{Grows};
ghost use Rattle.rip_heap.specs.Outcome.{Answers, Exceeds};

use crate::class::Class;
use crate::convert::to_text;
use crate::heap::Heap;
use crate::outcome::Abrupt;
use crate::stored::StoredObject;
use rip_base::{Fault, Limit, Span, Value, Whole, text_of_whole};
use rip_heap_region::pages::Property;
use rip_values::{FIRST_HEAP_OBJECT, FixedText};
use std::alloc::Global;

/// Cells that an error with its message costs.
const COST_OF_ERROR: u32 = 2;

impl Heap {
    /// A new error of that class, whose message is the text of the value (ECMA-262 15.11.1.1). The object and its
    /// text are one step: an answer other than a value leaves the heap as it was.
    pub fn new_error(
        &mut self,
        alloc: Global,
        class: Class,
        message: Value,
    ) -> Result<Value, Abrupt>
        ensures answers { Answers (new_error class self.old message) self.old result
            self.new }
        ensures grows { Grows self.old self.new }
    {
        match message {
            Value::Num(number) => self.error_of_number(alloc, class, number),
            _ => {
                let text = to_text(alloc, self, message)?;
                self.error_of_text(class, text)
            }
        }
    }

    // A new error with this message, which is there.
    fn error_of_text(&mut self, class: Class, message: Span) -> Result<Value, Abrupt>
        ensures answers { Answers
            (if nat_le (self.old.cells + cost_of_error) self.old.limit then error_made class message
            self.old else Exceeds Cells) self.old result self.new }
        ensures grows { Grows self.old self.new }
    {
        if self.free_cells() < COST_OF_ERROR {
            return Err(Abrupt::Limit(Limit::Cells));
        }
        let number = FIRST_HEAP_OBJECT + self.parts.named.len();
        let property = Property {
            name: FixedText::Message.span(),
            value: Value::Text(message),
        };
        self.parts
            .named
            .push_with(StoredObject::bare(class, None), property);
        self.used += COST_OF_ERROR;
        Ok(Value::Object(number))
    }

    // A new error whose message is the number's numeral.
    fn error_of_number(
        &mut self,
        alloc: Global,
        class: Class,
        number: Whole,
    ) -> Result<Value, Abrupt>
        ensures answers { Answers (new_error class self.old (Num number)) self.old result
            self.new }
        ensures grows { Grows self.old self.new }
    {
        let mut room = [0; 17];
        let count = text_of_whole(number, &mut room);
        if count > self.parts.named.pool().text_limit() as usize {
            return Err(Abrupt::Fault(Fault::TextTooLong));
        }
        if self.free_cells() < COST_OF_ERROR {
            return Err(Abrupt::Limit(Limit::Cells));
        }
        if count > self.parts.named.pool().free() as usize {
            return Err(Abrupt::Limit(Limit::Units));
        }
        let number = FIRST_HEAP_OBJECT + self.parts.named.len();
        self.parts.named.push_error(alloc, class, &room[..count]);
        self.used += COST_OF_ERROR;
        Ok(Value::Object(number))
    }
}
