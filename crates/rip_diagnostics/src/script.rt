use crate::cause::ScriptCause;
use crate::word::{
    behind_blank, is_name_byte, last_byte, last_word, name_in, without_blank, without_name,
};
use rip_early::EarlyKind;
use rip_lexer::LexKind;
use rip_parser::ParseKind;

/// Why the tokens of a script are refused, where these bytes stand from the place on.
pub fn token_cause(kind: LexKind, after: &[u8]) -> ScriptCause {
    match kind {
        LexKind::BadCharacter => character_cause(after),
        LexKind::OpenText => ScriptCause::OpenText,
        LexKind::OpenComment => ScriptCause::OpenComment,
        LexKind::FractionLiteral => ScriptCause::Fraction,
        LexKind::OctalLiteral if after.starts_with(b"\\") => ScriptCause::OctalEscape,
        LexKind::OctalLiteral => ScriptCause::Octal,
        LexKind::LiteralTooLarge => ScriptCause::TooLarge,
        LexKind::BadEscape => ScriptCause::Escape,
    }
}

/// Why a character is refused.
fn character_cause(after: &[u8]) -> ScriptCause {
    match after {
        [b'`', ..] => ScriptCause::Backquote,
        [0x80..=0xFF, ..] => ScriptCause::NotAscii,
        [byte, ..] if is_name_byte(*byte) => ScriptCause::BehindNumeral,
        _ => ScriptCause::Character,
    }
}

/// Why the tree of a script is refused, where these bytes stand before the place and from it on.
pub fn tree_cause(kind: ParseKind, before: &[u8], after: &[u8]) -> ScriptCause {
    match kind {
        ParseKind::TooNested => ScriptCause::TooNested,
        ParseKind::Unexpected if name_in(after).is_empty() => mark_cause(before, after),
        ParseKind::Unexpected => word_cause(before, name_in(after)),
    }
}

/// Why a word is unexpected.
fn word_cause(before: &[u8], word: &[u8]) -> ScriptCause {
    match word {
        b"const" => ScriptCause::Const,
        b"let" => ScriptCause::Let,
        b"class" | b"extends" | b"super" => ScriptCause::Class,
        b"import" | b"export" => ScriptCause::Module,
        b"yield" => ScriptCause::Yield,
        b"with" => ScriptCause::With,
        b"debugger" => ScriptCause::Debugger,
        b"in" => ScriptCause::ForIn,
        b"of" => ScriptCause::ForOf,
        b"enum"
        | b"implements"
        | b"interface"
        | b"package"
        | b"private"
        | b"protected"
        | b"public"
        | b"static" => ScriptCause::Word,
        _ => behind_cause(before, word),
    }
}

/// Why a word is unexpected behind another.
fn behind_cause(before: &[u8], word: &[u8]) -> ScriptCause {
    match last_word(before) {
        b"async" | b"await" => ScriptCause::Promise,
        b"get" | b"set" => ScriptCause::Accessor,
        b"throw" => ScriptCause::LineEnd,
        b"break" | b"continue" => ScriptCause::Label,
        b"var" => ScriptCause::Word,
        _ if word == b"function".as_slice() => function_cause(before),
        _ => ScriptCause::Unexpected,
    }
}

/// Why the word `function` is unexpected.
fn function_cause(before: &[u8]) -> ScriptCause {
    match last_byte(before) {
        Some(b'{' | b';' | b'}' | b')') => ScriptCause::InnerFunction,
        _ => ScriptCause::Unexpected,
    }
}

/// Why a mark is unexpected.
fn mark_cause(before: &[u8], after: &[u8]) -> ScriptCause {
    match after {
        [] => ScriptCause::EndOfScript,
        _ if after.starts_with(b"</script") => ScriptCause::EndOfScript,
        [b'>', ..] if before.ends_with(b"=") => ScriptCause::Arrow,
        [b'=', b'>', ..] => ScriptCause::Arrow,
        [b')', rest @ ..] if behind_blank(rest).starts_with(b"=>") => ScriptCause::Arrow,
        [b'.', b'.', b'.', ..] => ScriptCause::Spread,
        [b'.', ..] if before.ends_with(b"?") => ScriptCause::Chain,
        [b'?', ..] if before.ends_with(b"?") => ScriptCause::Nullish,
        [b'*', ..] if before.ends_with(b"*") => ScriptCause::Power,
        [b'*', ..] if last_word(before) == b"function".as_slice() => ScriptCause::Yield,
        [b'{' | b'[', ..] if last_word(before) == b"var".as_slice() => ScriptCause::Destructuring,
        [b'=', ..] => equals_cause(before),
        [b':', ..] => ScriptCause::Label,
        [b'/', ..] => ScriptCause::Expression,
        _ => list_cause(before, after),
    }
}

/// Why a `=` is unexpected.
fn equals_cause(before: &[u8]) -> ScriptCause {
    match last_byte(before) {
        Some(byte) if is_name_byte(byte) && begins_item(before) => ScriptCause::DefaultValue,
        _ => ScriptCause::Target,
    }
}

/// Whether the last name of the bytes stands at the beginning of a list in parentheses or braces, or behind a comma.
fn begins_item(before: &[u8]) -> bool {
    matches!(
        last_byte(without_name(without_blank(before))),
        Some(b'(' | b'{' | b',')
    )
}

/// Why a mark in a list or an object is unexpected.
fn list_cause(before: &[u8], after: &[u8]) -> ScriptCause {
    let is_item = !last_word(before).is_empty() && begins_item(before);
    match (last_byte(before), after) {
        (Some(b',' | b'['), [b',', ..]) => ScriptCause::Elision,
        (Some(b','), [b')', ..]) => ScriptCause::LastComma,
        (_, [b'}' | b',', ..]) if is_item => ScriptCause::Shorthand,
        (_, [b'(', ..]) if is_item => ScriptCause::Accessor,
        _ => ScriptCause::Unexpected,
    }
}

/// Why the names or jumps of a script are refused, where this word stands at the place.
pub fn name_cause(kind: EarlyKind, word: &[u8]) -> ScriptCause {
    match kind {
        EarlyKind::NotStrict => ScriptCause::NotStrict,
        EarlyKind::Duplicate => ScriptCause::Duplicate,
        EarlyKind::BadBinding => match word {
            b"eval" | b"arguments" => ScriptCause::BadName,
            _ => ScriptCause::Global,
        },
        EarlyKind::BadDelete => ScriptCause::Delete,
        EarlyKind::UnknownGlobal => unknown_cause(word),
        EarlyKind::NoGlobalObject => ScriptCause::This,
        EarlyKind::BadJump => match word {
            b"return" => ScriptCause::Return,
            b"break" => ScriptCause::Break,
            _ => ScriptCause::Continue,
        },
    }
}

/// Which unknown global a name is.
fn unknown_cause(word: &[u8]) -> ScriptCause {
    match word {
        b"console" => ScriptCause::Console,
        b"window" | b"self" | b"globalThis" | b"global" | b"top" | b"parent" => ScriptCause::Window,
        b"JSON" => ScriptCause::Json,
        b"Object" => ScriptCause::Object,
        b"Array" => ScriptCause::Array,
        b"Date" | b"performance" => ScriptCause::Date,
        b"setTimeout"
        | b"setInterval"
        | b"clearTimeout"
        | b"clearInterval"
        | b"requestAnimationFrame" => ScriptCause::Timer,
        b"alert" | b"confirm" | b"prompt" => ScriptCause::Dialog,
        b"fetch" | b"XMLHttpRequest" | b"WebSocket" | b"EventSource" => ScriptCause::Fetch,
        b"localStorage" | b"sessionStorage" | b"indexedDB" => ScriptCause::Storage,
        b"Infinity" => ScriptCause::Infinity,
        b"parseFloat" => ScriptCause::ParseFloat,
        b"Boolean" => ScriptCause::Boolean,
        b"RegExp" => ScriptCause::Pattern,
        b"Promise" => ScriptCause::Promise,
        b"Map" | b"Set" | b"WeakMap" | b"WeakSet" | b"Symbol" | b"Proxy" => ScriptCause::Collection,
        b"eval" | b"Function" => ScriptCause::Eval,
        _ => ScriptCause::UnknownGlobal,
    }
}
