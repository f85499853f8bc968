// Made from tables/names.txt by tools/names.py.
ghost use Rattle.std.specs.Prelude.{◌≡◌};
ghost use Rattle.rip_values.specs.GlobalTable.{global_name, global_value};

use crate::builtin::Builtin;
use crate::builtin_lookup::FIRST_NODE;
use rip_base::Value;

/// A global name of the profile (ECMA-262 15.1).
#[derive(Clone, Copy, Debug, PartialEq, Eq)]
pub enum Global {
    Document,
    Ripley,
    Math,
    ParseInt,
    IsNaN,
    String,
    Number,
    Error,
    TypeError,
    RangeError,
    Undefined,
    NaN,
}

/// All global names.
pub const GLOBALS: [Global; 12] = [
    Global::Document,
    Global::Ripley,
    Global::Math,
    Global::ParseInt,
    Global::IsNaN,
    Global::String,
    Global::Number,
    Global::Error,
    Global::TypeError,
    Global::RangeError,
    Global::Undefined,
    Global::NaN,
];

impl Global {
    /// Its name.
    pub fn name(self) -> &'static str
        ensures { result.now ≡ global_name self }
    {
        match self {
            Global::Document => "document",
            Global::Ripley => "ripley",
            Global::Math => "Math",
            Global::ParseInt => "parseInt",
            Global::IsNaN => "isNaN",
            Global::String => "String",
            Global::Number => "Number",
            Global::Error => "Error",
            Global::TypeError => "TypeError",
            Global::RangeError => "RangeError",
            Global::Undefined => "undefined",
            Global::NaN => "NaN",
        }
    }

    /// Its value.
    pub fn value(self) -> Value
        ensures { result ≡ global_value self }
    {
        match self {
            Global::Document => Value::Object(FIRST_NODE),
            Global::Ripley => Value::Object(Builtin::Ripley.number()),
            Global::Math => Value::Object(Builtin::Math.number()),
            Global::ParseInt => Value::Object(Builtin::ParseInt.number()),
            Global::IsNaN => Value::Object(Builtin::IsNaN.number()),
            Global::String => Value::Object(Builtin::String.number()),
            Global::Number => Value::Object(Builtin::Number.number()),
            Global::Error => Value::Object(Builtin::Error.number()),
            Global::TypeError => Value::Object(Builtin::TypeError.number()),
            Global::RangeError => Value::Object(Builtin::RangeError.number()),
            Global::Undefined => Value::Undefined,
            Global::NaN => Value::NaN,
        }
    }
}
