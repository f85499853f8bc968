// Made from tables/names.txt by tools/names.py.
use rip_values::{Builtin, FixedText};

// The calls of texts (ECMA-262 15.5.4).
pub(crate) static CALLS_OF_TEXTS: [(FixedText, Builtin); 4] = [
    (FixedText::CharAt, Builtin::TextCharAt),
    (FixedText::CharCodeAt, Builtin::TextCharCodeAt),
    (FixedText::Substring, Builtin::TextSubstring),
    (FixedText::IndexOf, Builtin::TextIndexOf),
];

// The calls of arrays (ECMA-262 15.4.4, 15.2.4.5).
pub(crate) static CALLS_OF_ARRAYS: [(FixedText, Builtin); 6] = [
    (FixedText::Push, Builtin::ArrayPush),
    (FixedText::Pop, Builtin::ArrayPop),
    (FixedText::Slice, Builtin::ArraySlice),
    (FixedText::IndexOf, Builtin::ArrayIndexOf),
    (FixedText::Join, Builtin::ArrayJoin),
    (FixedText::HasOwnProperty, Builtin::HasOwnProperty),
];

// The calls of `Math` (ECMA-262 15.8.2).
pub(crate) static CALLS_OF_MATH: [(FixedText, Builtin); 4] = [
    (FixedText::Abs, Builtin::MathAbs),
    (FixedText::Floor, Builtin::MathFloor),
    (FixedText::Min, Builtin::MathMin),
    (FixedText::Max, Builtin::MathMax),
];
