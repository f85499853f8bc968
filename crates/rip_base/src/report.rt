use crate::list::Units;
use thiserror::Error;

/// A kind of event that a user makes (DOM Level 2 Events 1.6; `input` is that of HTML).
#[derive(Clone, Copy, Debug, PartialEq, Eq)]
pub enum EventKind {
    Click,
    Focus,
    Blur,
    Submit,
    Change,
    Input,
}

/// An event that a browser reports: its kind and the number of its target.
///
/// It has a text, what the control then holds, exactly where the kind is [`EventKind::Input`]; and a place, that of the
/// option that was chosen, only where it is [`EventKind::Change`]. The number may be that of no node.
#[derive(Debug, Drop)]
pub struct Report {
    pub kind: EventKind,
    pub node: u32,
    pub text: Option<Units>,
    pub place: Option<u32>,
}

/// Why a report is not legal where it stands.
#[derive(Clone, Copy, Debug, PartialEq, Eq, Error)]
pub enum BadReport {
    #[error("no such node")]
    Node,
    #[error("no control of that kind")]
    Control,
    #[error("a control that is disabled")]
    Disabled,
    #[error("a text past the greatest length")]
    Long,
    #[error("no such option")]
    Option,
    #[error("a call out of its order")]
    Number,
    #[error("a reply that is not due")]
    Due,
}
