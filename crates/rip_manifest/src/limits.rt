ghost use Rattle.std.specs.Prelude.{◌≡◌, ℕ, ◌^◌, ◌<◌, ◌≤◌, ◌↔◌, IsTrue, IfSome, IfNone};
ghost use Rattle.serde_json.specs.Find.{get};
ghost use Rattle.serde_json.specs.View.{view, members_view};
ghost use Rattle.rip_limits.specs.Limits.{greatest, AreInRange};
ghost use Rattle.rip_limits.specs.declared.limits.Limits.{Limits as Named};
ghost use Rattle.rip_limits.specs.declared.version.Version.TheVariants.{Two};
ghost use Rattle.rip_manifest.specs.Limits.{is_limit_name, NameLimits, IsLimit, AreLimits, memory_of};

use rip_limits::{Limits, Version};
use serde_json::{Map, Value};

/// The bytes that all sessions may take together, 2^32.
pub const MOST_MEMORY: u64 = 4_294_967_296;

// What a session takes beside what its limits say, in bytes.
const MEMORY_OF_SESSION: u64 = 2_097_152;

// What a reply takes that is not delivered, in bytes.
const MEMORY_OF_REPLY: u64 = 16_384;

// The limits that the value names in this version, with the defaults of the others.
pub(crate) fn limits_of(version: Version, value: &Value) -> Option<Limits>
    ensures found { IfSome result (AreLimits version (view value.now)) }
    ensures none { IfNone result ((limits : Named) → ¬ AreLimits version (view value.now) limits) }
{
    if !name_limits(version, value.as_object()?) {
        return None;
    }
    let default = Limits::DEFAULT;
    let greatest = Limits::greatest(version);
    Some(Limits {
        fuel: limit(value, "fuel", default.fuel, greatest.fuel)?,
        cells: short_limit(value, "cells", default.cells, greatest.cells)?,
        units: short_limit(value, "units", default.units, greatest.units)?,
        nodes: short_limit(value, "nodes", default.nodes, greatest.nodes)?,
        depth: short_limit(value, "depth", default.depth, greatest.depth)?,
        queue: short_limit(value, "queue", default.queue, greatest.queue)?,
        sessions: short_limit(value, "sessions", default.sessions, greatest.sessions)?,
        text: short_limit(value, "text", default.text, greatest.text)?,
        replies: short_limit(value, "replies", default.replies, greatest.replies)?,
    })
}

// Whether each member has the name of a limit of this version.
fn name_limits(version: Version, members: &Map<String, Value>) -> bool
    ensures { IsTrue result ↔ NameLimits version (members_view members.now.entries) }
{
    for (name, _) in members.iter() {
        if !is_limit_name(version, name.as_str()) {
            return false;
        }
    }
    true
}

fn is_limit_name(version: Version, name: &str) -> bool
    ensures { result ≡ is_limit_name version name.now }
{
    match name {
        "fuel" | "cells" | "units" | "nodes" | "depth" | "queue" | "sessions" => true,
        "text" | "replies" => version == Version::Two,
        _ => false,
    }
}

// The limit of this name in the object: a whole number from 1 to the most, or the usual one where it is not named.
fn limit(object: &Value, name: &str, usual: u64, most: u64) -> Option<u64>
    ensures found { IfSome result (IsLimit (get name.now (view object.now)) usual most) }
    ensures none { IfNone result
        ((limit : ℕ) → ¬ IsLimit (get name.now (view object.now)) usual most limit) }
{
    let Some(value) = object.get(name) else {
        return Some(usual);
    };
    let limit = value.as_u64()?;
    if 1 <= limit && limit <= most {
        Some(limit)
    } else {
        None
    }
}

// The same of a limit of 32 bits.
fn short_limit(object: &Value, name: &str, usual: u32, most: u32) -> Option<u32>
    ensures found { IfSome result (IsLimit (get name.now (view object.now)) usual most) }
    ensures none { IfNone result
        ((limit : ℕ) → ¬ IsLimit (get name.now (view object.now)) usual most limit) }
{
    let limit = limit(object, name, u64::from(usual), u64::from(most))?;
    u32::try_from(limit).ok()
}

// The bytes that sessions with these limits may take.
pub(crate) fn memory_of(limits: &Limits) -> u64
    requires { AreInRange limits.now (greatest Two) }
    ensures { result ≡ memory_of limits.now }
{
    let session = 32 * u64::from(limits.cells)
        + 2 * u64::from(limits.units)
        + 64 * u64::from(limits.nodes)
        + 64 * u64::from(limits.depth)
        + u64::from(limits.queue)
        + MEMORY_OF_SESSION
        + MEMORY_OF_REPLY * u64::from(limits.replies);
    u64::from(limits.sessions) * session
}
