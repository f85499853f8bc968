ghost use Rattle.rip_law_browser.specs.Counts.{MachinesCount};

/// A law, and no work: runs of the machine leave what they had and did not need, and one that is cut wants one unit more.
pub fn machines_count<S>()
    ensures { MachinesCount S }
{}
