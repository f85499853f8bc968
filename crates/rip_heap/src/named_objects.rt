ghost use Rattle.std.specs.Prelude.{◌≡◌, ◌<◌, ◌≤◌, ◌+◌, ◌-◌, ◌∷◌, ◌++◌, [], false, IfOk, IfErr, IsErr, None, OnErr, OnOk, is_some, length, option_map, replicate, slice_get, slice_range, slice_set, take, true, ◌↔◌};
ghost use Rattle.std.specs.Borrow.{MutBor, sem};
ghost use Rattle.std.specs.Fn.{CalledAtMut};
ghost use Rattle.rip_values.specs.FixedTexts.{fixed_units};
ghost use Rattle.rip_values.specs.Pool.{Texts, cut_pool, joined, span_behind, with_text};
ghost use Rattle.rip_heap_region.specs.PageMemory.{memory_for};
ghost use Rattle.rip_heap.specs.Arrays.{array_object, last_of, elements_of, without_last};
ghost use Rattle.rip_heap.specs.Errors.{error_object};
ghost use Rattle.rip_heap.specs.HeadSlots.{IsStorable};
ghost use Rattle.rip_heap.specs.Lending.{OnlyAddsTexts, PoolGrows};
ghost use Rattle.rip_heap.specs.LendingNamed.{LendsPoolOf};
ghost use Rattle.rip_heap.specs.NamedObjects.{IsArrayAt, KeepObjects, place_at, with_another, with_edit, with_more, with_paid_edit, with_scope};
ghost use Rattle.rip_heap.specs.Memory.{slots_for};
ghost use Rattle.rip_heap.specs.Names.{named};
ghost use Rattle.rip_heap.specs.Region.{valued, without};
ghost use Rattle.rip_heap.specs.ScopeSlots.{binding_of, bound};
ghost use Rattle.rip_heap.specs.Scopes.{bindings_of, parent_of};
ghost use Rattle.rip_heap.specs.Stored.{head_of, object_of, properties_of, stored_with};

use crate::class::Class;
use crate::region::Region;
use crate::stored::StoredObject;
use rip_base::{Limit, NoMemory, Refused, Span, Value};
use rip_heap_region::buckets::{IndexMemory, NameIndexes};
use rip_heap_region::chains::OwnProperties;
use rip_heap_region::pages::{PageMemory, Property};
use rip_values::{FixedText, Pool};
use std::alloc::Global;
use std::marker::Model;

/// The texts, the objects and the scopes of a heap. Objects of many properties have an index from names to properties
/// beside them, which contracts do not see: it is why texts are changed through these calls alone.
#[derive(Debug, Drop)]
pub struct NamedObjects {
    pool: Pool,
    region: Region,
    indexes: NameIndexes,
    // How many units the texts had when a property was last added to an object. No name in an index lies behind them.
    names_end: u32,
}

impl Model for NamedObjects {
    ghost use Rattle.std.specs.Prelude.{◌≤◌, length};
    ghost use Rattle.rip_heap.specs.NamedObjects.{Named, first_texts, named_in};
    ghost use Rattle.rip_heap.specs.Region.{AreIndexes, listed};

    ghost Value = { Named };

    ghost view = { λ n. named_in n.pool (listed n.region) };

    ghost invariant = { λ n. record {
      named : n.names_end ≤ length n.pool.units;
      indexed : AreIndexes (first_texts n.pool n.names_end) n.region.pages n.indexes.blocks;
    } };
}

impl NamedObjects {
    /// These texts, and no objects and no scopes yet, with room for so many objects, properties, elements, scopes and
    /// bindings together.
    pub fn of(pool: Pool, pages: PageMemory, indexes: IndexMemory, cells: u32) -> NamedObjects
        requires memory { pages ≡ memory_for (slots_for cells) }
        requires most { slots_for cells ≤ 2147418112 }
        ensures { result ≡ record {
          pool = pool;
          objects = [];
          scopes = [];
          rooms = record { spent = 0; room = cells };
        } }
    {
        NamedObjects {
            pool,
            region: Region::of(pages, cells),
            indexes: NameIndexes::of(indexes),
            names_end: 0,
        }
    }

    /// The texts.
    pub fn pool(&self) -> &Pool
        ensures { result.now ≡ self.now.pool }
    {
        &self.pool
    }

    /// How many objects there are.
    pub fn len(&self) -> u32
        ensures { result ≡ length self.now.objects }
    {
        self.region.len()
    }

    /// The object at this place, but for its properties and its elements.
    pub fn get(&self, at: u32) -> Option<StoredObject>
        ensures { result ≡ option_map head_of (slice_get self.now.objects at) }
    {
        self.region.head(at)
    }

    /// The property of this number of the object at that place, in the order of making.
    pub fn property(&self, at: u32, number: u32) -> Option<Property>
        ensures { result ≡ slice_get (properties_of (slice_get self.now.objects at)) number }
    {
        self.region.property(at, number)
    }

    /// The properties of the object at this place, one by one.
    pub fn own_properties(&self, at: u32) -> OwnProperties<'_>
        ensures { result ≡ properties_of (slice_get self.now.objects at) }
    {
        self.region.own_properties(at)
    }

    /// The value of the property with this name of the object at this place.
    pub fn own(&self, at: u32, name: Span) -> Option<Value>
        requires within { at < length self.now.objects }
        ensures { result
            ≡ named self.now.pool name (properties_of (slice_get self.now.objects at)) }
    {
        self.region.own(&self.pool, &self.indexes, at, name)
    }

    /// How many elements the object at this place has.
    pub fn element_count(&self, at: u32) -> u32
        ensures { result ≡ length (elements_of (slice_get self.now.objects at)) }
    {
        self.region.element_count(at)
    }

    /// The element at this place of the object at that place.
    pub fn element(&self, at: u32, place: u32) -> Option<Value>
        ensures { result ≡ slice_get (elements_of (slice_get self.now.objects at)) place }
    {
        self.region.element(at, place)
    }

    // TEXTS

    /// Adds a text, as the pool does.
    pub fn add(&mut self, alloc: Global, text: &[u16]) -> Result<Span, Refused>
        ensures limit { (result ≡ Err (Refused.Limit Limit.Units))
            ↔ (self.old.pool.limit < self.old.pool.used + length text.now) }
        ensures only_limit { IfErr result (λ refused. refused ≡ Refused.Limit Limit.Units) }
        ensures span { IfOk result (λ span. span ≡ span_behind self.old.pool text.now) }
        ensures added { OnOk result
            (self.new ≡ record self.old
            { pool = with_text self.old.pool text.now (length text.now) }) }
        ensures err { OnErr result (self.new ≡ self.old) }
    {
        self.pool.add(alloc, text)
    }

    /// Adds a text at no charge, as the pool does.
    pub fn add_fixed(&mut self, alloc: Global, text: &[u16]) -> Result<Span, NoMemory>
        ensures span { IfOk result (λ span. span ≡ span_behind self.old.pool text.now) }
        ensures added { OnOk result
            (self.new ≡ record self.old { pool = with_text self.old.pool text.now 0 }) }
        ensures err { OnErr result (self.new ≡ self.old) }
    {
        self.pool.add_fixed(alloc, text)
    }

    /// Adds two texts joined to one, as the pool does.
    pub fn add_joined(&mut self, first: Span, second: Span) -> Result<Span, Limit>
        ensures limit { IsErr result
            ↔ (self.old.pool.limit
            < self.old.pool.used + length (joined self.old.pool first second)) }
        ensures only_units { IfErr result (λ limit. limit ≡ Limit.Units) }
        ensures span { IfOk result
            (λ span. span ≡ span_behind self.old.pool (joined self.old.pool first second)) }
        ensures added { OnOk result
            (self.new ≡ record self.old {
              pool = with_text self.old.pool (joined self.old.pool first second)
                  (length (joined self.old.pool first second));
            }) }
        ensures err { OnErr result (self.new ≡ self.old) }
    {
        self.pool.add_joined(first, second)
    }

    /// What the call answers to which the texts are lent, which may only add to them.
    pub fn with_texts<R, F: FnMut(&mut Pool) -> R>(&mut self, add: &mut F) -> R
        requires takes { (p : MutBor Texts) → p.now ≡ self.old.pool → F.pre add.old p }
        requires adds { OnlyAddsTexts F.FnMut add.old self.old.pool }
        ensures called { CalledAtMut F.FnMut add.old self.old.pool result add.new self.new.pool }
        ensures rest { self.new ≡ record self.old { pool = self.new.pool } }
        ensures adds { PoolGrows self.old.pool self.new.pool }
    {
        add(&mut self.pool)
    }

    /// The texts, to which more may be added. There are no indexes any more.
    pub fn pool_mut(&mut self) -> &mut Pool
        ensures* writes_back { sem 𝓛 (LendsPoolOf self.entry result) }
        ensures value { result.now ≡ self.old.pool }
    {
        self.indexes.clear();
        self.names_end = 0;
        &mut self.pool
    }

    /// Takes the texts back that were added since there were so many units, of which so many were charged. The indexes
    /// stay, unless a property was added to an object since.
    pub fn cut_back(&mut self, end: u32, used: u32)
        requires fixed { length fixed_units ≤ end }
        requires end { end ≤ length self.old.pool.units }
        requires used { used ≤ self.old.pool.used }
        requires charged { self.old.pool.used + end ≤ used + length self.old.pool.units }
        ensures { self.new ≡ record self.old { pool = cut_pool self.old.pool end used } }
    {
        if end < self.names_end {
            self.indexes.clear();
            self.names_end = 0;
        }
        self.pool.cut_back(end, used);
    }

    // OBJECTS

    /// Puts an object with no properties and no elements behind the others.
    pub fn push(&mut self, object: StoredObject)
        requires storable { IsStorable object }
        requires room { self.old.rooms.spent + 1 ≤ self.old.rooms.room }
        ensures { self.new ≡ with_another self.old (object_of (stored_with object []) []) 1 }
    {
        self.region.add(object);
    }

    /// Puts an object with this property, and no elements, behind the others.
    pub fn push_with(&mut self, object: StoredObject, property: Property)
        requires storable { IsStorable object }
        requires room { self.old.rooms.spent + 2 ≤ self.old.rooms.room }
        ensures { self.new
            ≡ with_another self.old (object_of (stored_with object (property ∷ [])) []) 2 }
    {
        let at = self.len();
        self.push(object);
        self.add_property(at, property.name, property.value);
    }

    /// Puts an array of these elements behind the others.
    pub fn push_array(&mut self, items: &[Value])
        requires room { self.old.rooms.spent + (1 + length items.now) ≤ self.old.rooms.room }
        ensures { self.new ≡ with_another self.old (array_object items.now) (1 + length items.now) }
    {
        let at = self.len();
        self.push(StoredObject::bare(Class::Array, None));
        self.push_elements(at, items);
    }

    /// Puts an array of the elements of the object at this place, from one place up to another, behind the others.
    pub fn push_piece(&mut self, at: u32, from: u32, to: u32)
        requires within { at < length self.old.objects }
        requires room { self.old.rooms.spent
            + (1 + length (slice_range (elements_of (slice_get self.old.objects at)) from to))
            ≤ self.old.rooms.room }
        ensures { self.new ≡ with_another self.old
            (array_object (slice_range (elements_of (slice_get self.old.objects at)) from to))
            (1 + length (slice_range (elements_of (slice_get self.old.objects at)) from to)) }
    {
        let made = self.len();
        let end = to.min(self.element_count(at));
        let first = from.min(end);
        self.push(StoredObject::bare(Class::Array, None));
        self.copy_elements(made, at, first, end);
    }

    // Puts the elements of an object, from one place up to another, behind those of an array.
    fn copy_elements(&mut self, to: u32, at: u32, first: u32, end: u32)
        requires array { IsArrayAt self.old.objects to }
        requires apart { at < to }
        requires range { first ≤ end }
        requires within { end ≤ length (elements_of (slice_get self.old.objects at)) }
        requires room { self.old.rooms.spent + (end - first) ≤ self.old.rooms.room }
        ensures { self.new ≡ with_paid_edit self.old to
            (with_more (slice_range (elements_of (slice_get self.old.objects at)) first end))
            (end - first) }
    {
        for place in first..end {
            let item = self.element(at, place).unwrap();
            self.push_element(to, item);
        }
    }

    /// Puts an error with this message behind the others.
    pub fn push_error(&mut self, alloc: Global, class: Class, message: &[u16])
        requires units { self.old.pool.used + length message.now ≤ self.old.pool.limit }
        requires room { self.old.rooms.spent + 2 ≤ self.old.rooms.room }
        ensures { self.new ≡ with_another
            (record self.old { pool = with_text self.old.pool message.now (length message.now) })
            (error_object class (span_behind self.old.pool message.now)) 2 }
    {
        let text = self.add(alloc, message).unwrap();
        let property = Property {
            name: FixedText::Message.span(),
            value: Value::Text(text),
        };
        self.push_with(StoredObject::bare(class, None), property);
    }

    /// Gives the property with this name of an object the value, and tells whether there is one.
    pub fn replace(&mut self, at: u32, name: Span, v: Value) -> bool
        requires within { at < length self.old.objects }
        ensures found { result ≡ is_some (place_at self.old at name) }
        ensures edited { self.new ≡ with_edit self.old at
            (λ o. record o { properties = valued o.properties v (place_at self.old at name) }) }
        ensures kept { result ≡ false → self.new ≡ self.old }
        ensures keeps { KeepObjects self.old.objects self.new.objects }
    {
        self.region.replace(&self.pool, &self.indexes, at, name, v)
    }

    /// Puts a property behind the others of an object.
    pub fn add_property(&mut self, at: u32, name: Span, value: Value)
        requires within { at < length self.old.objects }
        requires room { self.old.rooms.spent + 1 ≤ self.old.rooms.room }
        ensures edited { self.new ≡ with_paid_edit self.old at
            (λ o. record o { properties = o.properties ++ record { name = name; value = value } ∷ [] })
            1 }
        ensures keeps { KeepObjects self.old.objects self.new.objects }
    {
        self.region.push_property(&self.pool, &mut self.indexes, at, Property { name, value });
        self.names_end = self.pool.end();
    }

    /// Takes the property with this name of an object away, and tells whether there was one.
    pub fn remove(&mut self, at: u32, name: Span) -> bool
        requires within { at < length self.old.objects }
        ensures found { result ≡ is_some (place_at self.old at name) }
        ensures edited { self.new ≡ with_edit self.old at
            (λ o. record o { properties = without o.properties (place_at self.old at name) }) }
        ensures keeps { KeepObjects self.old.objects self.new.objects }
    {
        self.region
            .remove_property(&self.pool, &mut self.indexes, at, name)
    }

    // ELEMENTS

    /// Gives the element at this place of an object the value. Past the end nothing is changed.
    pub fn set_element(&mut self, at: u32, place: u32, v: Value)
        requires within { at < length self.old.objects }
        ensures edited { self.new
            ≡ with_edit self.old at (λ o. record o { elements = slice_set o.elements place v }) }
        ensures keeps { KeepObjects self.old.objects self.new.objects }
    {
        self.region.set_element(at, place, v);
    }

    /// Puts an element behind the others of an array.
    pub fn push_element(&mut self, at: u32, v: Value)
        requires array { IsArrayAt self.old.objects at }
        requires room { self.old.rooms.spent + 1 ≤ self.old.rooms.room }
        ensures edited { self.new ≡ with_paid_edit self.old at
            (λ o. record o { elements = o.elements ++ v ∷ [] }) 1 }
        ensures keeps { KeepObjects self.old.objects self.new.objects }
    {
        self.region.push_element(at, v);
    }

    /// Puts these elements behind the others of an array.
    pub fn push_elements(&mut self, at: u32, items: &[Value])
        requires array { IsArrayAt self.old.objects at }
        requires room { self.old.rooms.spent + length items.now ≤ self.old.rooms.room }
        ensures edited { self.new ≡ with_paid_edit self.old at
            (λ o. record o { elements = o.elements ++ items.now }) (length items.now) }
        ensures keeps { KeepObjects self.old.objects self.new.objects }
    {
        for item in items {
            self.push_element(at, *item);
        }
    }

    /// Takes the last element of an object away and gives it.
    pub fn pop_element(&mut self, at: u32) -> Option<Value>
        requires within { at < length self.old.objects }
        ensures last { result ≡ last_of (elements_of (slice_get self.old.objects at)) }
        ensures left { self.new
            ≡ with_edit self.old at (λ o. record o { elements = without_last o.elements }) }
        ensures keeps { KeepObjects self.old.objects self.new.objects }
    {
        let count = self.element_count(at);
        let last = count.saturating_sub(1);
        let item = self.element(at, last);
        self.cut_elements(at, last);
        item
    }

    /// Takes the elements of an object from this count on away.
    pub fn cut_elements(&mut self, at: u32, count: u32)
        requires within { at < length self.old.objects }
        ensures edited { self.new
            ≡ with_edit self.old at (λ o. record o { elements = take count o.elements }) }
        ensures keeps { KeepObjects self.old.objects self.new.objects }
    {
        self.region.cut_elements(at, count);
    }

    // SCOPES

    /// How many scopes there are.
    pub fn scopes(&self) -> u32
        ensures { result ≡ length self.now.scopes }
    {
        self.region.scopes()
    }

    /// The scope around the scope of that number.
    pub fn parent(&self, scope: u32) -> Option<u32>
        ensures { result ≡ parent_of (slice_get self.now.scopes scope) }
    {
        self.region.parent(scope)
    }

    /// How many bindings the scope of that number has.
    pub fn names(&self, scope: u32) -> u32
        ensures { result ≡ length (bindings_of (slice_get self.now.scopes scope)) }
    {
        self.region.names(scope)
    }

    /// The value of the binding at this place.
    pub fn binding(&self, scope: u32, place: u32) -> Option<Value>
        ensures { result ≡ binding_of (slice_get self.now.scopes scope) place }
    {
        self.region.binding(scope, place)
    }

    /// Gives the binding at this place the value. Where there is none nothing is changed.
    pub fn bind(&mut self, scope: u32, place: u32, v: Value)
        ensures { self.new ≡ record self.old {
          scopes = bound self.old.scopes scope place v (slice_get self.old.scopes scope);
        } }
    {
        self.region.bind(scope, place, v);
    }

    /// Gives the binding at this place the value, if it has one already, and tells whether it has.
    pub fn rebind(&mut self, scope: u32, place: u32, v: Value) -> bool
        ensures told { result ≡ is_some (binding_of (slice_get self.old.scopes scope) place) }
        ensures bound { result ≡ true → self.new ≡ record self.old {
          scopes = bound self.old.scopes scope place v (slice_get self.old.scopes scope);
        } }
        ensures same { result ≡ false → self.new ≡ self.old }
    {
        self.region.rebind(scope, place, v)
    }

    /// Puts a scope behind the others, with so many bindings, none of which has a value yet.
    pub fn push_scope(&mut self, parent: Option<u32>, names: u32)
        requires room { self.old.rooms.spent + (1 + names) ≤ self.old.rooms.room }
        ensures { self.new ≡ with_scope self.old
            (record { parent = parent; bindings = replicate names None }) (1 + names) }
    {
        self.region.push_scope(parent, names);
    }
}
