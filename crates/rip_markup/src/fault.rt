use rip_base::PageKind;

/// Why a construct is refused, and how many units behind its first one.
#[derive(Clone, Copy, Debug, PartialEq, Eq)]
pub struct Fault {
    pub offset: usize,
    pub kind: PageKind,
}
