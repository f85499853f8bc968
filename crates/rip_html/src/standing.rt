ghost use Rattle.std.specs.Prelude.{◌≡◌, ◌<◌, ◌+◌, ◌^◌, [], ◌∷◌, IfOk, OnOk, length, Option, option_map};
ghost use Rattle.rip_html.specs.Standings.{Standing, alone, first_standing, opened, part_begun, begun, part_ended, behind_start, behind_end, after};
ghost use Rattle.std.specs.List.{AllByRecursion};
ghost use Rattle.rip_markup.specs.Within.{PlacedWithin};
ghost use Rattle.rip_html.specs.Refusals.{kind_at, refusal_at, first_refusal};

use crate::fault::{least_fault, own_fault, place_fault, shifted};
use crate::kinds::{element_kind, part_kind};
use crate::part::Part;
use crate::tags::is_script;
use rip_base::{NoMemory, PageKind, Units};
use rip_markup::{Fault, Placed, Token, is_void};
use std::alloc::Global;
use std::collections::VecDeque;
use std::marker::Model;

/// Where a token of a page stands.
#[derive(Debug, Drop)]
pub(crate) struct Open {
    part: Part,
    /// The names of the elements that are open within head or body, the innermost first.
    names: VecDeque<Units>,
}

impl Model for Open {
    ghost use Rattle.rip_html.specs.Standings.{Standing};

    ghost Value = { Standing };

    ghost view = { λ o. record { part = o.part; open_names = o.names.items } };
}

impl Open {
    /// Where the first token stands.
    fn first(alloc: Global) -> Open
        ensures { result ≡ first_standing }
    {
        Open {
            part: Part::Beginning,
            names: VecDeque::new(alloc),
        }
    }

    /// As what a token is refused for the place at which it stands.
    fn kind_at(&self, token: &Token) -> Option<PageKind>
        ensures { result ≡ kind_at self.now.part self.now.open_names token.now }
    {
        match self.names.front() {
            Some(innermost) => { element_kind(innermost.as_slice(), self.names.len() + 2, token) }
            None => part_kind(self.part, token),
        }
    }

    /// Where and as what a token that stands here is refused, counted from its first unit.
    fn refusal_at(&self, token: &Token) -> Option<Fault>
        ensures { result ≡ refusal_at self.now token.now }
    {
        least_fault(place_fault(self.kind_at(token), token), own_fault(token))
    }

    /// Goes behind a token.
    fn pass(&mut self, alloc: Global, token: &Token) -> Result<(), NoMemory>
        ensures { OnOk result (self.new ≡ after self.old token.now) }
    {
        match token {
            Token::StartTag(tag) => self.begin(alloc, tag.name.as_slice()),
            Token::EndTag(_) => {
                self.end();
                Ok(())
            }
            Token::Doctype => {
                self.part = Part::BehindDoctype;
                Ok(())
            }
            _ => Ok(()),
        }
    }

    /// Goes behind the start tag of an element of this name.
    fn begin(&mut self, alloc: Global, name: &[u16]) -> Result<(), NoMemory>
        ensures { OnOk result (self.new ≡ behind_start self.old.part self.old.open_names name.now) }
    {
        if self.names.is_empty() {
            match self.part {
                Part::Beginning | Part::BehindDoctype => self.part = Part::InHtml,
                Part::InHtml => self.part = Part::InHead,
                Part::BehindHead => self.part = Part::InBody,
                Part::InHead | Part::InScripts => return self.open(alloc, name),
                Part::InBody => {
                    self.part = part_begun(name);
                    return self.open(alloc, name);
                }
                Part::BehindBody | Part::BehindHtml => {}
            }
            Ok(())
        } else {
            self.open(alloc, name)
        }
    }

    /// Opens an element of this name, if it has content.
    fn open(&mut self, alloc: Global, name: &[u16]) -> Result<(), NoMemory>
        ensures { OnOk result (self.new ≡ opened self.old.part self.old.open_names name.now) }
    {
        if !is_void(name) {
            self.names.push_front(Units::from_slice(alloc, name)?)?;
        }
        Ok(())
    }

    /// Goes behind an end tag.
    fn end(&mut self)
        ensures { self.new ≡ behind_end self.old.part self.old.open_names }
    {
        if self.names.pop_front().is_none() {
            self.part = part_ended(self.part);
        }
    }
}

/// The part of the body behind a start tag of this name.
fn part_begun(name: &[u16]) -> Part
    ensures { result ≡ part_begun Part.InBody name.now }
{
    if is_script(name) {
        Part::InScripts
    } else {
        Part::InBody
    }
}

/// The part behind the end tag of a part.
fn part_ended(part: Part) -> Part
    ensures { result ≡ part_ended part }
{
    match part {
        Part::InHead => Part::BehindHead,
        Part::InBody | Part::InScripts => Part::BehindBody,
        Part::BehindBody => Part::BehindHtml,
        _ => part,
    }
}

/// The first refusal among the tokens of a page. Its offset is a place in the page's text.
pub(crate) fn first_refusal(alloc: Global, tokens: &[Placed]) -> Result<Option<Fault>, NoMemory>
    requires { AllByRecursion (PlacedWithin (2 ^ 32)) tokens.now }
    ensures { IfOk result (λ found. found ≡ first_refusal tokens.now) }
{
    let mut open = Open::first(alloc);
    for placed in tokens {
        if let Some(fault) = open.refusal_at(&placed.token) {
            return Ok(Some(shifted(placed.place, fault)));
        }
        open.pass(alloc, &placed.token)?;
    }
    Ok(None)
}
