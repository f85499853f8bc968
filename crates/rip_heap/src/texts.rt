ghost use Rattle.std.specs.Prelude.{◌≡◌, IfOk, OnErr};
ghost use Rattle.std.specs.Borrow.{MutBor, sem};
ghost use Rattle.std.specs.Fmt.{signed_decimal};
ghost use Rattle.std.specs.Fn.{CalledAtMut};
ghost use Rattle.rip_heap.specs.Growth.{Grows};
ghost use Rattle.rip_values.specs.Pool.{Texts, text_at, joined};
ghost use Rattle.rip_heap.specs.Conversions.{numeral_made};
ghost use Rattle.rip_heap.specs.Lending.{LendsPool, OnlyAddsTexts, with_pool};
ghost use Rattle.rip_heap.specs.Step.{Makes, TakesNoMemory};
ghost use Rattle.rip_heap.specs.Texts.{concat, name_added, new_text};

use crate::heap::Heap;
use crate::outcome::Halt;
use rip_base::{Fault, Limit, NoMemory, Refused, Span, Whole, text_of_whole};
use rip_values::Pool;
use std::alloc::Global;

impl Heap {
    /// A new text: the two texts, one behind the other. It takes no memory.
    pub fn concat(&mut self, alloc: Global, a: Span, b: Span) -> Result<Span, Refused>
        ensures made { Makes Limit.Units (concat self.old a b) self.old result self.new }
        ensures stands { IfOk result
            (λ span. text_at self.new.pool span ≡ joined self.old.pool a b) }
        ensures room { TakesNoMemory result }
        ensures grows { Grows self.old self.new }
    {
        Ok(self.parts.named.add_joined(a, b)?)
    }

    /// A new text of these units, at its length.
    pub fn add_text(&mut self, alloc: Global, text: &[u16]) -> Result<Span, Refused>
        ensures made { Makes Limit.Units (new_text self.old text.now) self.old result self.new }
        ensures stands { IfOk result (λ span. text_at self.new.pool span ≡ text.now) }
        ensures room { TakesNoMemory result }
        ensures grows { Grows self.old self.new }
    {
        self.parts.named.add(alloc, text)
    }

    /// A name of the program, which costs nothing.
    pub fn add_name(&mut self, alloc: Global, text: &[u16]) -> Result<Span, NoMemory>
        ensures made { IfOk result (λ span. (span, self.new) ≡ name_added self.old text.now) }
        ensures kept { OnErr result (self.new ≡ self.old) }
        ensures stands { IfOk result (λ span. text_at self.new.pool span ≡ text.now) }
        ensures grows { Grows self.old self.new }
    {
        self.parts.named.add_fixed(alloc, text)
    }

    // A new text: the decimal numeral of the number (ECMA-262 9.8.1).
    pub(crate) fn add_number(&mut self, alloc: Global, number: Whole) -> Result<Span, Halt>
        ensures made { (result, self.new) ≡ numeral_made self.old (signed_decimal number) }
        ensures grows { Grows self.old self.new }
    {
        let mut room = [0; 17];
        let count = text_of_whole(number, &mut room);
        if count > self.parts.named.pool().text_limit() as usize {
            return Err(Halt::Fault(Fault::TextTooLong));
        }
        match self.parts.named.add(alloc, &room[..count]) {
            Ok(span) => Ok(span),
            Err(_) => Err(Halt::Limit(Limit::Units)),
        }
    }

    /// The texts of the heap.
    pub fn pool(&self) -> &Pool
        ensures { result.now ≡ self.now.pool }
    {
        self.parts.named.pool()
    }

    /// What the call answers to which the texts of the heap are lent. It may only add to them, and all else stays as it is.
    pub fn with_texts<R, F: FnMut(&mut Pool) -> R>(&mut self, add: &mut F) -> R
        requires takes { (p : MutBor Texts) → p.now ≡ self.old.pool → F.pre add.old p }
        requires adds { OnlyAddsTexts F.FnMut add.old self.old.pool }
        ensures called { CalledAtMut F.FnMut add.old self.old.pool result add.new self.new.pool }
        ensures rest { self.new ≡ with_pool self.old self.new.pool }
        ensures grows { Grows self.old self.new }
    {
        self.parts.named.with_texts(add)
    }

    /// The texts of the heap, to which more may be added. All else stays as it is. It is for the opening of a page, before
    /// which there is little to find: look-ups by name take longer from then on, until an object gets more names.
    pub fn pool_mut(&mut self) -> &mut Pool
        ensures* writes_back { sem 𝓛 (LendsPool self.entry result) }
        ensures value { result.now ≡ self.old.pool }
    {
        self.parts.named.pool_mut()
    }
}
