ghost use Rattle.std.specs.Prelude.{◌≡◌};
ghost use Rattle.rip_markup.specs.Tokens.{is_last, content_of, content_after, drops_line};

use crate::fault::Fault;
use crate::tag::StartTag;
use rip_base::{Units, is_ascii};

/// A text between tags, or the text of an element that holds nothing else.
#[derive(Debug, Drop)]
pub struct TextRun {
    /// What it stands for.
    pub units: Units,
    /// How many units of space it begins with.
    pub space: usize,
    /// How many units it has as it is spelled.
    pub count: usize,
    /// What is wrong with it, counted from its first unit.
    pub fault: Option<Fault>,
}

/// An end tag.
#[derive(Debug, Drop)]
pub struct EndTag {
    /// The name in small letters.
    pub name: Units,
    /// Whether space or none and `>` follow the name.
    pub whole: bool,
}

/// A part of a page (HTML 13.2.5).
#[derive(Debug, Drop)]
pub enum Token {
    /// The end of the page.
    End,
    Text(TextRun),
    StartTag(StartTag),
    EndTag(EndTag),
    Comment(Units),
    /// A `<!--` with no `-->` behind it.
    OpenComment,
    Doctype,
    /// A `<` that begins none of these.
    Stray,
}

/// A token, and the place of its first unit in the text of the page.
#[derive(Debug, Drop)]
pub struct Placed {
    pub place: usize,
    pub token: Token,
}

/// What may stand in an element (HTML 13.1.2).
#[derive(Clone, Copy, Debug, PartialEq, Eq)]
pub(crate) enum Content {
    Markup,
    /// Markup, of which one LF at the beginning is dropped.
    Preformatted,
    Script,
    Style,
    Title,
    /// Text, of which one LF at the beginning is dropped.
    Textarea,
}

impl Token {
    /// Whether no token follows: the page ends, or the token is refused for itself.
    pub fn is_last(&self) -> bool
        ensures { result ≡ is_last self.now }
    {
        match self {
            Token::End | Token::OpenComment | Token::Stray => true,
            Token::Text(run) => run.fault.is_some(),
            Token::StartTag(tag) => tag.fault.is_some(),
            Token::EndTag(end) => !end.whole,
            Token::Comment(_) | Token::Doctype => false,
        }
    }

    /// The content of the element that the token begins, or markup.
    pub(crate) fn content_after(&self) -> Content
        ensures { result ≡ content_after self.now }
    {
        match self {
            Token::StartTag(tag) => content_of(tag.name.as_slice()),
            _ => Content::Markup,
        }
    }
}

/// The content of an element of this name.
fn content_of(name: &[u16]) -> Content
    ensures { result ≡ content_of name.now }
{
    if is_ascii(name, b"script") {
        Content::Script
    } else if is_ascii(name, b"style") {
        Content::Style
    } else if is_ascii(name, b"title") {
        Content::Title
    } else if is_ascii(name, b"textarea") {
        Content::Textarea
    } else if is_ascii(name, b"pre") {
        Content::Preformatted
    } else {
        Content::Markup
    }
}

impl Content {
    /// Whether one LF at the beginning is dropped.
    pub(crate) fn drops_line(self) -> bool
        ensures { result ≡ drops_line self }
    {
        matches!(self, Content::Preformatted | Content::Textarea)
    }
}
