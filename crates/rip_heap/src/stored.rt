ghost use Rattle.std.specs.Prelude.{◌≡◌};
ghost use Rattle.rip_heap.specs.Objects.{bare, function_object};
ghost use Rattle.rip_heap.specs.Stored.{head_of};

use crate::class::Class;

/// An object as the heap keeps it, without its properties and its elements.
#[derive(Clone, Copy, Debug)]
pub struct StoredObject {
    pub class: Class,
    pub proto: Option<u32>,
    pub code: Option<(u32, u32)>,
}

impl StoredObject {
    /// An object with nothing in it.
    pub fn bare(class: Class, proto: Option<u32>) -> StoredObject
        ensures { result ≡ head_of (bare class proto) }
    {
        StoredObject {
            class,
            proto,
            code: None,
        }
    }

    /// A function of the script: its node and its scope. Whichever object is its `prototype` is kept beside.
    pub fn function(node: u32, scope: u32) -> StoredObject
        ensures { result ≡ head_of (function_object node scope 0) }
    {
        StoredObject {
            class: Class::Function,
            proto: None,
            code: Some((node, scope)),
        }
    }
}
