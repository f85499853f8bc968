ghost use Rattle.std.specs.Prelude.{◌≡◌, ◌≢◌, IfSome, IfNone, IfOk, IfErr, List as Items};
ghost use Rattle.serde_json.specs.View.{view, members_view};
ghost use Rattle.rip_manifest.specs.declared.function.Function.{Function as Declared};
ghost use Rattle.rip_manifest.specs.declared.function.Operation.{Operation as Word};
ghost use Rattle.rip_manifest.specs.Functions.{word_of, Declares, DeclareAll, AreFunctions};
ghost use Rattle.rip_manifest.specs.Manifest.{IsKindFrom};

use crate::function::{Function, Functions, Operation};
use crate::name::{is_name, is_prefix};
use crate::refusal::{ManifestKind, ManifestRefusal};
use rip_base::Units;
use serde_json::{Map, Value};
use std::alloc::{AllocError, Global};

/// The most functions that a manifest declares.
pub const MOST_FUNCTIONS: usize = 256;

// The functions that the value declares.
pub(crate) fn functions_of(alloc: Global, value: &Value) -> Result<Functions, ManifestRefusal>
    ensures found { IfOk result (AreFunctions (view value.now)) }
    ensures refused { IfErr result (IsKindFrom ManifestKind.Function
        ((functions : Items Declared) → ¬ AreFunctions (view value.now) functions)) }
{
    let Some(members) = value.as_object() else {
        return Err(ManifestRefusal::Kind(ManifestKind::Function));
    };
    if members.len() > MOST_FUNCTIONS {
        return Err(ManifestRefusal::Kind(ManifestKind::Function));
    }
    declared_by(alloc, members)
}

// The functions that the members declare.
fn declared_by(alloc: Global, members: &Map<String, Value>) -> Result<Functions, ManifestRefusal>
    ensures found { IfOk result (DeclareAll (members_view members.now.entries)) }
    ensures refused { IfErr result (IsKindFrom ManifestKind.Function
        ((functions : Items Declared) → ¬ DeclareAll (members_view members.now.entries)
        functions)) }
{
    let mut functions = Vec::with_capacity(alloc, members.len())?;
    for (name, member) in members.iter() {
        functions.push(function_of(alloc, name.as_str(), member)?)?;
    }
    Ok(Functions::from_vec(functions))
}

// The function that the member `name:value` declares.
fn function_of(alloc: Global, name: &str, value: &Value) -> Result<Function, ManifestRefusal>
    ensures found { IfOk result (Declares name.now (view value.now)) }
    ensures refused { IfErr result (IsKindFrom ManifestKind.Function
        ((function : Declared) → ¬ Declares name.now (view value.now) function)) }
{
    match declared(name, value) {
        None => Err(ManifestRefusal::Kind(ManifestKind::Function)),
        Some((op, prefix)) => Ok(Function {
            name: units_of(alloc, name)?,
            op,
            prefix: units_of(alloc, prefix)?,
        }),
    }
}

// The operation and the prefix that the member `name:value` declares.
fn declared<'a>(name: &str, value: &'a Value) -> Option<(Operation, &'a str)>
    ensures found { IfSome result (λ d. Declares name.now (view value.now)
        (record { name = name.now; op = d.0; prefix = d.1.now })) }
    ensures none { IfNone result
        ((function : Declared) → ¬ Declares name.now (view value.now) function) }
{
    let [op, prefix] = value.as_array()?.as_slice() else {
        return None;
    };
    let op = operation_of(op.as_str()?)?;
    let prefix = prefix.as_str()?;
    if is_name(name.as_bytes()) && is_prefix(prefix.as_bytes()) {
        Some((op, prefix))
    } else {
        None
    }
}

// The operation of this word.
fn operation_of(word: &str) -> Option<Operation>
    ensures found { IfSome result (λ op. word.now ≡ word_of op) }
    ensures none { IfNone result ((op : Word) → word.now ≢ word_of op) }
{
    match word {
        "get" => Some(Operation::Get),
        "put" => Some(Operation::Put),
        "add" => Some(Operation::Add),
        "take" => Some(Operation::Take),
        "push" => Some(Operation::Push),
        "list" => Some(Operation::List),
        _ => None,
    }
}

// The units of a text of ASCII letters: each byte is one.
fn units_of(alloc: Global, text: &str) -> Result<Units, AllocError>
    ensures { IfOk result (λ units. units ≡ text.now) }
{
    let units: Vec<u16> = text.bytes().map(u16::from).collect(alloc)?;
    Ok(Units::from_vec(units))
}
