ghost use Rattle.std.specs.Prelude.{◌≡◌, ◌≢◌, IfOk, IfErr, Some, Result as Answer, Err};
ghost use Rattle.serde_json.specs.Data.{Data};
ghost use Rattle.serde_json.specs.View.{view};
ghost use Rattle.rip_data.specs.Reading.{value_of};
ghost use Rattle.rip_limits.specs.Limits.{greatest, AreInRange};
ghost use Rattle.rip_limits.specs.declared.version.Version.TheVariants.{Two};
ghost use Rattle.rip_manifest.specs.declared.refusal.ManifestRefusal.{ManifestRefusal as Refusal};
ghost use Rattle.rip_manifest.specs.Manifest.{Contents, IsJson, IsStatement, ManifestOf, IsRefused, IsAnswer, IsKindFrom};

use crate::function::Functions;
use crate::functions::functions_of;
use crate::limits::{MOST_MEMORY, limits_of, memory_of};
use crate::parts::{parts_of, stated_of};
use crate::refusal::{ManifestKind, ManifestRefusal};
use crate::statement::Stated;
use rip_base::NoMemory;
use rip_data::{DataError, read_long};
use rip_limits::{Language, Limits, Version, Wire};
use serde_json::Value;
use std::alloc::Global;
use std::marker::Model;

/// What a manifest says: in which versions it speaks, the functions that it declares, in the order of their names, and
/// the limits of each session.
#[derive(Debug, Drop)]
pub struct Manifest {
    stated: Stated,
    functions: Functions,
    limits: Limits,
}

impl Model for Manifest {
    ghost use Rattle.rip_limits.specs.Limits.{greatest, AreInRange};
    ghost use Rattle.rip_limits.specs.declared.version.Version.TheVariants.{Two};
    ghost use Rattle.rip_manifest.specs.Manifest.{Contents};

    ghost Value = { Contents };

    ghost view = { λ m. record { stated = m.stated; functions = m.functions; limits = m.limits } };

    ghost invariant = { λ m. AreInRange m.limits (greatest Two) };
}

impl Manifest {
    /// Its version.
    pub fn version(&self) -> Version
        ensures { result ≡ self.now.stated.version }
    {
        self.stated.version
    }

    /// The language of the page's scripts; language 1 in version 1.
    pub fn language(&self) -> Language
        ensures { result ≡ self.now.stated.language }
    {
        self.stated.language
    }

    /// The wire of the page's browsers; wire 1 in version 1.
    pub fn wire(&self) -> Wire
        ensures { result ≡ self.now.stated.wire }
    {
        self.stated.wire
    }

    /// The functions that it declares, in the order of their names.
    pub fn functions(&self) -> &Functions
        ensures { result.now ≡ self.now.functions }
    {
        &self.functions
    }

    /// The limits of each session.
    pub fn limits(&self) -> &Limits
        ensures value { result.now ≡ self.now.limits }
        ensures in_range { AreInRange self.now.limits (greatest Two) }
    {
        &self.limits
    }
}

/// The manifest that the bytes are, as JSON in UTF-8 (RFC 8259), with exactly these members, in any order:
/// `{"version":1,"functions":{..},"limits":{..}}`, or
/// `{"version":2,"language":1,"wire":1,"functions":{..},"limits":{..}}`. Of a repeated member the last counts. Bytes that are no data, since a number in
/// them is not whole or they nest more than 8 deep, are refused as those that are no JSON.
///
/// Where more than one refusal holds, the first in the order of [`ManifestKind`] is answered, and
/// [`ManifestRefusal::LimitsTooLarge`] behind these; memory may run out at any text.
pub fn read_manifest(alloc: Global, bytes: &[u8]) -> Result<Manifest, ManifestRefusal>
    ensures found { IfOk result (ManifestOf bytes.now) }
    ensures refused { IfErr result
        (λ refusal. refusal ≢ ManifestRefusal.Memory → IsRefused bytes.now refusal) }
    ensures only { (answer : Answer Contents Refusal) → IsAnswer bytes.now answer
        → result ≢ Err ManifestRefusal.Memory → result ≡ answer }
{
    let value = json_of(alloc, bytes)?;
    let Some(parts) = parts_of(&value) else {
        return Err(ManifestRefusal::Kind(ManifestKind::Member));
    };
    let Some(stated) = stated_of(parts) else {
        return Err(ManifestRefusal::Kind(ManifestKind::Version));
    };
    let functions = functions_of(alloc, parts.functions)?;
    let Some(limits) = limits_of(stated.version, parts.limits) else {
        return Err(ManifestRefusal::Kind(ManifestKind::LimitRange));
    };
    if memory_of(&limits) > MOST_MEMORY {
        return Err(ManifestRefusal::LimitsTooLarge);
    }
    Ok(Manifest {
        stated,
        functions,
        limits,
    })
}

/// What the bytes state of themselves, whatever functions and limits they name; `None` exactly where they are refused as
/// [`ManifestKind::Syntax`], [`ManifestKind::Member`] or [`ManifestKind::Version`].
pub fn stated(alloc: Global, bytes: &[u8]) -> Result<Option<Stated>, NoMemory>
    ensures { IfOk result (IsStatement bytes.now) }
{
    let value = match json_of(alloc, bytes) {
        Ok(value) => value,
        Err(ManifestRefusal::Kind(_)) => return Ok(None),
        Err(_) => return Err(NoMemory),
    };
    let Some(parts) = parts_of(&value) else {
        return Ok(None);
    };
    Ok(stated_of(parts))
}

// The value that the bytes are, if they are data.
fn json_of(alloc: Global, bytes: &[u8]) -> Result<Value, ManifestRefusal>
    ensures found { IfOk result (λ value. IsJson bytes.now (view value)) }
    ensures refused { IfErr result (IsKindFrom ManifestKind.Syntax
        ((value : Data) → ¬ IsJson bytes.now value)) }
{
    match read_long(alloc, bytes) {
        Ok(_) => value_of(alloc, bytes),
        Err(DataError::Memory) => Err(ManifestRefusal::Memory),
        Err(_) => Err(ManifestRefusal::Kind(ManifestKind::Syntax)),
    }
}

// The value that the bytes of data are: what is refused here is want of memory.
fn value_of(alloc: Global, bytes: &[u8]) -> Result<Value, ManifestRefusal>
    ensures found { IfOk result (λ value. value_of bytes.now ≡ Some (view value)) }
    ensures memory { IfErr result (λ refusal. refusal ≡ ManifestRefusal.Memory) }
{
    match Value::from_slice(alloc, bytes) {
        Ok(value) => Ok(value),
        Err(_) => Err(ManifestRefusal::Memory),
    }
}
