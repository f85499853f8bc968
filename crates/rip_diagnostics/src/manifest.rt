use crate::cause::AppCause;
use crate::members::{Part, depth_at, member_at, number_at, value_of};
use crate::page::PageFile;
use crate::sheet::{Severity, Sheet};
use crate::table::app_message;
use rip_base::NoMemory;
use rip_data::{DataError, read_long};
use rip_limits::{Limits, Version};
use rip_manifest::{MOST_FUNCTIONS, MOST_LETTERS, ManifestKind, ManifestRefusal, read_manifest};
use serde_json::Value;
use std::alloc::Global;

/// What is wrong with a manifest, the name that it is about, and where it stands.
#[derive(Clone, Copy)]
struct Wrong<'a> {
    cause: AppCause,
    name: &'a [u8],
    place: Part,
}

/// Says why the manifest is refused, if it is.
pub fn put_manifest(alloc: Global, sheet: &mut Sheet, file: PageFile<'_>) -> Result<(), NoMemory> {
    match read_manifest(alloc, file.bytes) {
        Ok(_) => Ok(()),
        Err(ManifestRefusal::Memory) => Err(NoMemory),
        Err(ManifestRefusal::Kind(ManifestKind::Syntax)) => put_syntax(alloc, sheet, file),
        Err(ManifestRefusal::Kind(kind)) => put_kind(alloc, sheet, file, kind),
        Err(ManifestRefusal::LimitsTooLarge) => {
            let place = name_of(file.bytes, b"limits", None);
            put(
                sheet,
                file,
                wrong_at(AppCause::LimitsTooLarge, b"limits", place),
            )
        }
    }
}

/// Something that is wrong.
fn wrong_at<'a>(cause: AppCause, name: &'a [u8], place: Part) -> Wrong<'a> {
    Wrong { cause, name, place }
}

/// Says what is wrong.
fn put(sheet: &mut Sheet, file: PageFile<'_>, it: Wrong<'_>) -> Result<(), NoMemory> {
    let at = file.at(it.place.place, it.place.count);
    sheet.put(Severity::Error, app_message(it.cause), it.name, at)?;
    sheet.end()
}

/// Where the name of a member stands; at the beginning where it is spelled with escapes.
fn name_of(bytes: &[u8], outer: &[u8], inner: Option<&[u8]>) -> Part {
    match member_at(bytes, outer, inner) {
        Some(part) => part,
        None => Part { place: 0, count: 1 },
    }
}

/// Says why the bytes are no data.
fn put_syntax(alloc: Global, sheet: &mut Sheet, file: PageFile<'_>) -> Result<(), NoMemory> {
    let (cause, place) = match read_long(alloc, file.bytes) {
        Err(DataError::Memory) => return Err(NoMemory),
        Err(DataError::NotWhole) => (AppCause::NotWhole, number_at(file.bytes)),
        Err(DataError::TooDeep) => (AppCause::TooDeep, depth_at(file.bytes)),
        _ => (AppCause::Syntax, syntax_place(alloc, file.bytes)?),
    };
    put(sheet, file, wrong_at(cause, b"", Part { place, count: 1 }))
}

/// The place at which the bytes are no JSON.
fn syntax_place(alloc: Global, bytes: &[u8]) -> Result<usize, NoMemory> {
    match Value::from_slice(alloc, bytes) {
        Ok(_) => Ok(0),
        Err(error) if error.is_memory() => Err(NoMemory),
        Err(error) => Ok(place_of(bytes, error.line(), error.column())),
    }
}

/// The byte at which this line and column are, both counted from 1, where a line ends in LF.
fn place_of(bytes: &[u8], line: usize, column: usize) -> usize {
    let mut left = line.saturating_sub(1);
    let mut start = 0usize;
    for (place, byte) in bytes.iter().enumerate() {
        if left == 0 {
            break;
        }
        if *byte == b'\n' {
            left = left.saturating_sub(1);
            start = place.saturating_add(1);
        }
    }
    start
        .saturating_add(column.saturating_sub(1))
        .min(bytes.len())
}

/// Says what is wrong with the value.
fn put_kind(
    alloc: Global,
    sheet: &mut Sheet,
    file: PageFile<'_>,
    kind: ManifestKind,
) -> Result<(), NoMemory> {
    let value = match Value::from_slice(alloc, file.bytes) {
        Ok(value) => value,
        Err(_) => return Err(NoMemory),
    };
    let found = match kind {
        ManifestKind::Syntax | ManifestKind::Member => wrong_member(&value, file.bytes),
        ManifestKind::Version => wrong_version(&value, file.bytes),
        ManifestKind::Function => wrong_functions(&value, file.bytes),
        ManifestKind::LimitRange => wrong_limits(&value, file.bytes),
    };
    put(sheet, file, found)
}

/// Which member is missing or surplus.
fn wrong_member<'a>(value: &'a Value, bytes: &[u8]) -> Wrong<'a> {
    let start = Part { place: 0, count: 1 };
    let Some(members) = value.as_object() else {
        return wrong_at(AppCause::NoObject, b"", start);
    };
    let of_five = value.get("language").is_some() || value.get("wire").is_some();
    for (name, _) in members.iter() {
        if !is_member(name.as_str()) {
            let place = name_of(bytes, name.as_str().as_bytes(), None);
            return wrong_at(AppCause::OtherMember, name.as_str().as_bytes(), place);
        }
    }
    wrong_at(AppCause::NoMember, missing(value, of_five), start)
}

/// Whether manifests of version 1 or 2 have a member of this name.
fn is_member(name: &str) -> bool {
    matches!(
        name,
        "version" | "language" | "wire" | "functions" | "limits"
    )
}

/// The first of the three members, or of the five, that the value has not.
fn missing(value: &Value, of_five: bool) -> &'static [u8] {
    if value.get("version").is_none() {
        b"version"
    } else if of_five && value.get("language").is_none() {
        b"language"
    } else if of_five && value.get("wire").is_none() {
        b"wire"
    } else if value.get("functions").is_none() {
        b"functions"
    } else {
        b"limits"
    }
}

/// Which of the version, the language and the wire is none.
fn wrong_version<'a>(value: &Value, bytes: &[u8]) -> Wrong<'a> {
    let version = value.get("version").and_then(Value::as_u64);
    let language = value.get("language").and_then(Value::as_u64);
    let name: &'static [u8] = match (version_of(value), version) {
        (Version::One, _) => b"version",
        (Version::Two, Some(2)) if language != Some(1) => b"language",
        (Version::Two, Some(2)) => b"wire",
        (Version::Two, _) => b"version",
    };
    let place = name_of(bytes, name, None);
    wrong_at(AppCause::Version, name, value_of(bytes, place))
}

/// The version whose members the value has.
fn version_of(value: &Value) -> Version {
    match value.get("language") {
        None => Version::One,
        Some(_) => Version::Two,
    }
}

/// Which function is none.
fn wrong_functions<'a>(value: &'a Value, bytes: &[u8]) -> Wrong<'a> {
    let name = name_of(bytes, b"functions", None);
    let Some(members) = value.get("functions").and_then(Value::as_object) else {
        return wrong_at(AppCause::NoFunctions, b"functions", value_of(bytes, name));
    };
    if members.len() > MOST_FUNCTIONS {
        return wrong_at(AppCause::TooManyFunctions, b"functions", name);
    }
    for (name, member) in members.iter() {
        if let Some(cause) = function_cause(name.as_str().as_bytes(), member) {
            return wrong_function(cause, name.as_str().as_bytes(), bytes);
        }
    }
    wrong_at(AppCause::NoFunctions, b"functions", name)
}

/// Where a function that is none stands: its name, or its value.
fn wrong_function<'a>(cause: AppCause, name: &'a [u8], bytes: &[u8]) -> Wrong<'a> {
    let place = name_of(bytes, b"functions", Some(name));
    match cause {
        AppCause::FunctionName => wrong_at(cause, name, place),
        _ => wrong_at(cause, name, value_of(bytes, place)),
    }
}

/// Why a member declares no function.
fn function_cause(name: &[u8], member: &Value) -> Option<AppCause> {
    let Some(items) = member.as_array() else {
        return Some(AppCause::FunctionForm);
    };
    let [operation, prefix] = items.as_slice() else {
        return Some(AppCause::FunctionForm);
    };
    let (Some(operation), Some(prefix)) = (operation.as_str(), prefix.as_str()) else {
        return Some(AppCause::FunctionForm);
    };
    if !matches!(operation, "get" | "put" | "add" | "take" | "push" | "list") {
        return Some(AppCause::Operation);
    }
    if !is_name(prefix.as_bytes()) {
        return Some(AppCause::Prefix);
    }
    if name.is_empty() || !is_name(name) {
        return Some(AppCause::FunctionName);
    }
    None
}

/// Whether the bytes are at most 64 letters of ASCII, digits, `_` and `.`.
fn is_name(bytes: &[u8]) -> bool {
    bytes.len() <= MOST_LETTERS
        && bytes.iter().all(
            |byte| matches!(byte, b'a'..=b'z' | b'A'..=b'Z' | b'0'..=b'9' | b'_' | b'.'),
        )
}

/// Which limit is none.
fn wrong_limits<'a>(value: &'a Value, bytes: &[u8]) -> Wrong<'a> {
    let name = name_of(bytes, b"limits", None);
    let Some(members) = value.get("limits").and_then(Value::as_object) else {
        return wrong_at(AppCause::NoLimits, b"limits", value_of(bytes, name));
    };
    for (name, limit) in members.iter() {
        let place = name_of(bytes, b"limits", Some(name.as_str().as_bytes()));
        match greatest(version_of(value), name.as_str()) {
            None => return wrong_at(AppCause::LimitName, name.as_str().as_bytes(), place),
            Some(most) if !is_limit(limit, most) => {
                return wrong_at(
                    AppCause::LimitRange,
                    name.as_str().as_bytes(),
                    value_of(bytes, place),
                );
            }
            Some(_) => {}
        }
    }
    wrong_at(AppCause::NoLimits, b"limits", name)
}

/// Whether the value is a whole number from 1 to the most.
fn is_limit(value: &Value, most: u64) -> bool {
    match value.as_u64() {
        Some(limit) => 1 <= limit && limit <= most,
        None => false,
    }
}

/// The greatest that a limit of this version may be, if it has one of this name.
fn greatest(version: Version, name: &str) -> Option<u64> {
    let greatest = Limits::greatest(version);
    match name {
        "fuel" => Some(greatest.fuel),
        "cells" => Some(u64::from(greatest.cells)),
        "units" => Some(u64::from(greatest.units)),
        "nodes" => Some(u64::from(greatest.nodes)),
        "depth" => Some(u64::from(greatest.depth)),
        "queue" => Some(u64::from(greatest.queue)),
        "sessions" => Some(u64::from(greatest.sessions)),
        "text" if version == Version::Two => Some(u64::from(greatest.text)),
        "replies" if version == Version::Two => Some(u64::from(greatest.replies)),
        _ => None,
    }
}
