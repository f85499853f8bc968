ghost use Rattle.std.specs.Prelude.{◌≡◌, IfSome, IfNone};
ghost use Rattle.serde_json.specs.View.{view};
ghost use Rattle.rip_limits.specs.declared.version.Language.{Language as InLanguage};
ghost use Rattle.rip_limits.specs.declared.version.Wire.{Wire as OnWire};
ghost use Rattle.rip_manifest.specs.Manifest.{Parts as Named, HasParts, HasShared, IsLanguage, IsWire, State, StateSome};
ghost use Rattle.rip_manifest.specs.Reading.{parts_view};

use crate::statement::Stated;
use rip_limits::{Language, Version, Wire};
use serde_json::Value;

// The members of a manifest: three, or five, which have a language and a wire beside.
#[derive(Clone, Copy)]
pub(crate) struct Parts<'a> {
    pub(crate) version: &'a Value,
    pub(crate) beside: Option<(&'a Value, &'a Value)>,
    pub(crate) functions: &'a Value,
    pub(crate) limits: &'a Value,
}

// The members of the object, if they are exactly those of a manifest.
pub(crate) fn parts_of(value: &Value) -> Option<Parts<'_>>
    ensures found { IfSome result (λ parts. HasParts (view value.now) (parts_view parts)) }
    ensures none { IfNone result ((parts : Named) → ¬ HasParts (view value.now) parts) }
{
    let count = value.as_object()?.len();
    if count == 3 {
        parts_beside(value, None)
    } else if count == 5 {
        parts_beside(value, Some((value.get("language")?, value.get("wire")?)))
    } else {
        None
    }
}

// The members of the object that manifests of both versions have, beside these.
fn parts_beside<'a>(value: &'a Value, beside: Option<(&'a Value, &'a Value)>) -> Option<Parts<'a>>
    ensures beside { IfSome result (λ parts. parts.beside ≡ beside.entry) }
    ensures found { IfSome result (λ parts. HasShared (view value.now) (parts_view parts)) }
    ensures none { IfNone result ((parts : Named) → ¬ HasParts (view value.now) parts) }
{
    Some(Parts {
        version: value.get("version")?,
        beside,
        functions: value.get("functions")?,
        limits: value.get("limits")?,
    })
}

// What the members state.
pub(crate) fn stated_of(parts: Parts<'_>) -> Option<Stated>
    ensures found { IfSome result (State (parts_view parts.entry)) }
    ensures none { IfNone result (¬ StateSome (parts_view parts.entry)) }
{
    match (parts.version.as_u64()?, parts.beside) {
        (1, None) => Some(Stated {
            version: Version::One,
            language: Language::One,
            wire: Wire::One,
        }),
        (2, Some((language, wire))) => Some(Stated {
            version: Version::Two,
            language: language_of(language)?,
            wire: wire_of(wire)?,
        }),
        _ => None,
    }
}

// The language that the value names.
fn language_of(value: &Value) -> Option<Language>
    ensures found { IfSome result (IsLanguage (view value.now)) }
    ensures none { IfNone result
        ((language : InLanguage) → ¬ IsLanguage (view value.now) language) }
{
    match value.as_u64()? {
        1 => Some(Language::One),
        _ => None,
    }
}

// The wire that the value names.
fn wire_of(value: &Value) -> Option<Wire>
    ensures found { IfSome result (IsWire (view value.now)) }
    ensures none { IfNone result ((wire : OnWire) → ¬ IsWire (view value.now) wire) }
{
    match value.as_u64()? {
        1 => Some(Wire::One),
        _ => None,
    }
}
