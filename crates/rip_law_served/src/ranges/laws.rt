ghost use Rattle.rip_law_served.specs.Meant.{ApplicationsMeanInRange};

/// A law, and no work: whatever an application is, and whatever its sessions are opened with, report and are given, what they
/// do is in range, where their batches are.
pub fn applications_mean_in_range()
    ensures { ApplicationsMeanInRange }
{}
