ghost use Rattle.rip_manifest.specs.Laws.{HasAnAnswer, HasOneAnswer, VersionOneStands};

/// The law of manifests: bytes are one manifest, or they are refused for one cause, and never both.
pub fn exactly_one()
    ensures some { HasAnAnswer }
    ensures one { HasOneAnswer }
{}

/// The law of manifests of version 1: the longest text and the undelivered replies are the default ones, so that the sum
/// of what sessions take knows neither.
pub fn memory_of_version_one_stands()
    ensures { VersionOneStands }
{}
