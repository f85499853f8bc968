// Made from tables/names.txt by tools/names.py.
ghost use Rattle.std.specs.Prelude.{◌≡◌, ◌<◌};
ghost use Rattle.rip_values.specs.Builtins.{number_of, name_of, home_of, is_function};

use crate::builtin_lookup::FIRST_HEAP_OBJECT;

/// What a built-in is a member of.
#[derive(Clone, Copy, Debug, PartialEq, Eq)]
pub enum BuiltinHome {
    /// Its name is a global name.
    Global,
    Math,
    /// Every plain object.
    Object,
    /// Every script function.
    Function,
    Array,
    Text,
    Ripley,
    Document,
    Node,
    Event,
}

/// The built-in objects and functions of the profile. Each has a number below [`FIRST_HEAP_OBJECT`], its place here.
#[derive(Clone, Copy, Debug, PartialEq, Eq)]
pub enum Builtin {
    // Home: `Global`.
    Math,
    Ripley,
    ParseInt,
    IsNaN,
    String,
    Number,
    Error,
    TypeError,
    RangeError,
    // Home: `Math`.
    MathAbs,
    MathFloor,
    MathMin,
    MathMax,
    // Home: `Object`.
    HasOwnProperty,
    // Home: `Function`.
    FunctionCall,
    // Home: `Array`.
    ArrayPush,
    ArrayPop,
    ArraySlice,
    ArrayIndexOf,
    ArrayJoin,
    // Home: `Text`.
    TextCharAt,
    TextCharCodeAt,
    TextSubstring,
    TextIndexOf,
    // Home: `Ripley`.
    RipleyCall,
    RipleyNow,
    RipleyRandom,
    // Home: `Document`.
    GetElementById,
    CreateElement,
    CreateTextNode,
    // Home: `Node`.
    HasChildNodes,
    AppendChild,
    InsertBefore,
    ReplaceChild,
    RemoveChild,
    GetAttribute,
    HasAttribute,
    SetAttribute,
    RemoveAttribute,
    AddEventListener,
    RemoveEventListener,
    // Home: `Event`.
    StopPropagation,
    PreventDefault,
}

/// Every built-in, at the place of its number.
pub static BUILTINS: [Builtin; 43] = [
    Builtin::Math,
    Builtin::Ripley,
    Builtin::ParseInt,
    Builtin::IsNaN,
    Builtin::String,
    Builtin::Number,
    Builtin::Error,
    Builtin::TypeError,
    Builtin::RangeError,
    Builtin::MathAbs,
    Builtin::MathFloor,
    Builtin::MathMin,
    Builtin::MathMax,
    Builtin::HasOwnProperty,
    Builtin::FunctionCall,
    Builtin::ArrayPush,
    Builtin::ArrayPop,
    Builtin::ArraySlice,
    Builtin::ArrayIndexOf,
    Builtin::ArrayJoin,
    Builtin::TextCharAt,
    Builtin::TextCharCodeAt,
    Builtin::TextSubstring,
    Builtin::TextIndexOf,
    Builtin::RipleyCall,
    Builtin::RipleyNow,
    Builtin::RipleyRandom,
    Builtin::GetElementById,
    Builtin::CreateElement,
    Builtin::CreateTextNode,
    Builtin::HasChildNodes,
    Builtin::AppendChild,
    Builtin::InsertBefore,
    Builtin::ReplaceChild,
    Builtin::RemoveChild,
    Builtin::GetAttribute,
    Builtin::HasAttribute,
    Builtin::SetAttribute,
    Builtin::RemoveAttribute,
    Builtin::AddEventListener,
    Builtin::RemoveEventListener,
    Builtin::StopPropagation,
    Builtin::PreventDefault,
];

impl Builtin {
    /// The number of the built-in as an object.
    pub fn number(self) -> u32
        ensures number { result ≡ number_of self }
        ensures below { result < FIRST_HEAP_OBJECT }
    {
        match self {
            Builtin::Math => 0,
            Builtin::Ripley => 1,
            Builtin::ParseInt => 2,
            Builtin::IsNaN => 3,
            Builtin::String => 4,
            Builtin::Number => 5,
            Builtin::Error => 6,
            Builtin::TypeError => 7,
            Builtin::RangeError => 8,
            Builtin::MathAbs => 9,
            Builtin::MathFloor => 10,
            Builtin::MathMin => 11,
            Builtin::MathMax => 12,
            Builtin::HasOwnProperty => 13,
            Builtin::FunctionCall => 14,
            Builtin::ArrayPush => 15,
            Builtin::ArrayPop => 16,
            Builtin::ArraySlice => 17,
            Builtin::ArrayIndexOf => 18,
            Builtin::ArrayJoin => 19,
            Builtin::TextCharAt => 20,
            Builtin::TextCharCodeAt => 21,
            Builtin::TextSubstring => 22,
            Builtin::TextIndexOf => 23,
            Builtin::RipleyCall => 24,
            Builtin::RipleyNow => 25,
            Builtin::RipleyRandom => 26,
            Builtin::GetElementById => 27,
            Builtin::CreateElement => 28,
            Builtin::CreateTextNode => 29,
            Builtin::HasChildNodes => 30,
            Builtin::AppendChild => 31,
            Builtin::InsertBefore => 32,
            Builtin::ReplaceChild => 33,
            Builtin::RemoveChild => 34,
            Builtin::GetAttribute => 35,
            Builtin::HasAttribute => 36,
            Builtin::SetAttribute => 37,
            Builtin::RemoveAttribute => 38,
            Builtin::AddEventListener => 39,
            Builtin::RemoveEventListener => 40,
            Builtin::StopPropagation => 41,
            Builtin::PreventDefault => 42,
        }
    }

    /// The name by which it is found at its home, which is ASCII.
    pub fn name(self) -> &'static str
        ensures { result.now ≡ name_of self }
    {
        match self {
            Builtin::Math => "Math",
            Builtin::Ripley => "ripley",
            Builtin::ParseInt => "parseInt",
            Builtin::IsNaN => "isNaN",
            Builtin::String => "String",
            Builtin::Number => "Number",
            Builtin::Error => "Error",
            Builtin::TypeError => "TypeError",
            Builtin::RangeError => "RangeError",
            Builtin::MathAbs => "abs",
            Builtin::MathFloor => "floor",
            Builtin::MathMin => "min",
            Builtin::MathMax => "max",
            Builtin::HasOwnProperty => "hasOwnProperty",
            Builtin::FunctionCall => "call",
            Builtin::ArrayPush => "push",
            Builtin::ArrayPop => "pop",
            Builtin::ArraySlice => "slice",
            Builtin::ArrayIndexOf => "indexOf",
            Builtin::ArrayJoin => "join",
            Builtin::TextCharAt => "charAt",
            Builtin::TextCharCodeAt => "charCodeAt",
            Builtin::TextSubstring => "substring",
            Builtin::TextIndexOf => "indexOf",
            Builtin::RipleyCall => "call",
            Builtin::RipleyNow => "now",
            Builtin::RipleyRandom => "random",
            Builtin::GetElementById => "getElementById",
            Builtin::CreateElement => "createElement",
            Builtin::CreateTextNode => "createTextNode",
            Builtin::HasChildNodes => "hasChildNodes",
            Builtin::AppendChild => "appendChild",
            Builtin::InsertBefore => "insertBefore",
            Builtin::ReplaceChild => "replaceChild",
            Builtin::RemoveChild => "removeChild",
            Builtin::GetAttribute => "getAttribute",
            Builtin::HasAttribute => "hasAttribute",
            Builtin::SetAttribute => "setAttribute",
            Builtin::RemoveAttribute => "removeAttribute",
            Builtin::AddEventListener => "addEventListener",
            Builtin::RemoveEventListener => "removeEventListener",
            Builtin::StopPropagation => "stopPropagation",
            Builtin::PreventDefault => "preventDefault",
        }
    }

    /// What the built-in is a member of.
    pub fn home(self) -> BuiltinHome
        ensures { result ≡ home_of self }
    {
        match self {
            Builtin::Math => BuiltinHome::Global,
            Builtin::Ripley => BuiltinHome::Global,
            Builtin::ParseInt => BuiltinHome::Global,
            Builtin::IsNaN => BuiltinHome::Global,
            Builtin::String => BuiltinHome::Global,
            Builtin::Number => BuiltinHome::Global,
            Builtin::Error => BuiltinHome::Global,
            Builtin::TypeError => BuiltinHome::Global,
            Builtin::RangeError => BuiltinHome::Global,
            Builtin::MathAbs => BuiltinHome::Math,
            Builtin::MathFloor => BuiltinHome::Math,
            Builtin::MathMin => BuiltinHome::Math,
            Builtin::MathMax => BuiltinHome::Math,
            Builtin::HasOwnProperty => BuiltinHome::Object,
            Builtin::FunctionCall => BuiltinHome::Function,
            Builtin::ArrayPush => BuiltinHome::Array,
            Builtin::ArrayPop => BuiltinHome::Array,
            Builtin::ArraySlice => BuiltinHome::Array,
            Builtin::ArrayIndexOf => BuiltinHome::Array,
            Builtin::ArrayJoin => BuiltinHome::Array,
            Builtin::TextCharAt => BuiltinHome::Text,
            Builtin::TextCharCodeAt => BuiltinHome::Text,
            Builtin::TextSubstring => BuiltinHome::Text,
            Builtin::TextIndexOf => BuiltinHome::Text,
            Builtin::RipleyCall => BuiltinHome::Ripley,
            Builtin::RipleyNow => BuiltinHome::Ripley,
            Builtin::RipleyRandom => BuiltinHome::Ripley,
            Builtin::GetElementById => BuiltinHome::Document,
            Builtin::CreateElement => BuiltinHome::Document,
            Builtin::CreateTextNode => BuiltinHome::Document,
            Builtin::HasChildNodes => BuiltinHome::Node,
            Builtin::AppendChild => BuiltinHome::Node,
            Builtin::InsertBefore => BuiltinHome::Node,
            Builtin::ReplaceChild => BuiltinHome::Node,
            Builtin::RemoveChild => BuiltinHome::Node,
            Builtin::GetAttribute => BuiltinHome::Node,
            Builtin::HasAttribute => BuiltinHome::Node,
            Builtin::SetAttribute => BuiltinHome::Node,
            Builtin::RemoveAttribute => BuiltinHome::Node,
            Builtin::AddEventListener => BuiltinHome::Node,
            Builtin::RemoveEventListener => BuiltinHome::Node,
            Builtin::StopPropagation => BuiltinHome::Event,
            Builtin::PreventDefault => BuiltinHome::Event,
        }
    }

    /// Whether the built-in is a function, and no object.
    pub fn is_function(self) -> bool
        ensures { result ≡ is_function self }
    {
        match self {
            Builtin::Math => false,
            Builtin::Ripley => false,
            _ => true,
        }
    }
}
