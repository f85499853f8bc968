ghost use Rattle.std.specs.Prelude.{◌≡◌, ◌+◌, ◌++◌, ◌∷◌, [], ◌<◌, ◌≤◌, ℕ, List, length, All, IfOk, IfErr, OnOk, OnErr, true};
ghost use Rattle.rip_lexer.specs.Tokens.{IsTokenOf};
ghost use Rattle.rip_tree.specs.Branches.{AreBetween};
ghost use Rattle.rip_tree.specs.Making.{with_units};
ghost use Rattle.rip_grammar.specs.Words.{is_single};
ghost use Rattle.rip_parser.specs.Building.{Fits, State, HasForm, HasRoom, IsFormOf, IsPut, IsReadable, IsTakeable, Makes, Takes, Wraps, absent, beginning, deeper, greatest, rooted};
ghost use Rattle.rip_parser.specs.Listed.{AreInOrder, GrowsBy};
ghost use Rattle.rip_parser.specs.Shows.{IsKey, IsSingle, text_of};

use crate::error::BuildError;
use crate::forms::{is_part, piece_of, plain_form};
use crate::literal::{literal_of, numeral_of};
use crate::part::{Part, deeper, greatest, levels_over, list_numbers, place_over};
use rip_base::NoMemory;
use rip_grammar::{Event, Head, Lexeme, Word};
use rip_lexer::Token;
use rip_tree::{Form, Key, Node, Tree, TreeMaker};
use std::alloc::Global;
use std::marker::Model;

/// A tree and its depth, up to [`TOO_DEEP`].
#[derive(Debug, Drop)]
pub(crate) struct Built {
    pub tree: Tree,
    pub depth: u32,
}

/// A tree that is being made of what is told of a script, and the parts that no node has taken yet.
#[derive(Debug, Drop)]
pub(crate) struct Builder {
    maker: TreeMaker,
    parts: Vec<Part>,
    /// The children of the node that is being made.
    children: Vec<Option<u32>>,
    /// The units of the text that is being read.
    text: Vec<u16>,
}

impl Model for Builder {
    ghost use Rattle.rip_parser.specs.Building.{State};

    ghost Value = { State };

    ghost view = { λ b. record { growth = b.maker; parts = b.parts.items } };
}

impl Builder {
    /// Nothing is made yet of a tree of so many nodes.
    pub fn new(alloc: Global, script: &[u16], total: u32) -> Result<Builder, NoMemory>
        ensures { IfOk result (λ builder. builder ≡ beginning script.now total) }
    {
        Ok(Builder {
            maker: TreeMaker::new(alloc, total, script)?,
            parts: Vec::new(alloc),
            children: Vec::new(alloc),
            text: Vec::new(alloc),
        })
    }

    /// Takes what is told next.
    pub fn take(&mut self, script: &[u16], tokens: &[Token], event: Event) -> Result<(), BuildError>
        requires tokens { All (IsTokenOf script.now) tokens.now }
        requires fits { Fits self.old }
        requires room { HasRoom event self.old }
        ensures taken { OnOk result (Takes script.now event self.old self.new) }
        ensures refused { IfErr result
            (λ e. e ≡ BuildError.NoPhrase → AreInOrder tokens.now
            → IsTakeable script.now tokens.now event self.old → ⊥) }
    {
        match event {
            Event::Absent => self.leave_out(),
            Event::Parenthesized(place) => self.wrap(place),
            Event::Node { place, head, count } => self.make(script, tokens, place, head, count),
        }
    }

    /// The tree, once all but its root is made: the script over all parts.
    pub fn finish(self) -> Result<Built, BuildError>
        requires fits { Fits self }
        requires room { length self.growth.branches + 1 ≡ self.growth.total }
        ensures finished { IfOk result (λ built. built.tree ≡ rooted self) }
        ensures depth { IfOk result (λ built. built.depth ≡ deeper (greatest self.parts)) }
        ensures memory { IfErr result (λ e. e ≡ BuildError.Memory) }
    {
        let mut maker = self.maker;
        let mut children = self.children;
        let parts = self.parts.as_slice();
        list_numbers(&mut children, parts)?;
        let depth = deeper(greatest(parts));
        maker.push(
            Node {
                place: 0,
                form: Form::Script,
            },
            children.as_slice(),
        )?;
        Ok(Built {
            tree: maker.finish(),
            depth,
        })
    }

    /// A part is not there.
    fn leave_out(&mut self) -> Result<(), BuildError>
        ensures left_out { OnOk result
            (self.new ≡ record self.old { parts = self.old.parts ++ absent ∷ [] }) }
        ensures memory { IfErr result (λ e. e ≡ BuildError.Memory) }
    {
        self.parts.push(Part {
            number: None,
            place: 0,
            levels: 0,
        })?;
        Ok(())
    }

    /// Parentheses stand around the last part.
    fn wrap(&mut self, place: u32) -> Result<(), BuildError>
        ensures wrapped { OnOk result (Wraps place self.old self.new) }
        ensures refused { IfErr result
            (λ e. e ≡ BuildError.NoPhrase → 0 < length self.old.parts → ⊥) }
    {
        match self.parts.pop() {
            Some(part) => {
                self.parts.push(Part {
                    number: part.number,
                    place,
                    levels: deeper(part.levels),
                })?;
                Ok(())
            }
            None => Err(BuildError::NoPhrase),
        }
    }

    /// A node is made over the last parts.
    fn make(
        &mut self,
        script: &[u16],
        tokens: &[Token],
        place: Option<u32>,
        head: Head,
        count: u32,
    ) -> Result<(), BuildError>
        requires tokens { All (IsTokenOf script.now) tokens.now }
        requires fits { Fits self.old }
        requires room { length self.old.growth.branches < self.old.growth.total }
        ensures made { OnOk result (Makes script.now place head count self.old self.new) }
        ensures refused { IfErr result
            (λ e. e ≡ BuildError.NoPhrase → AreInOrder tokens.now → (count ≤ length self.old.parts)
            × HasForm script.now tokens.now head → ⊥) }
    {
        let count = count as usize;
        if count > self.parts.len() {
            return Err(BuildError::NoPhrase);
        }
        let form = form_of(&mut self.maker, &mut self.text, script, tokens, head)?;
        let start = self.parts.len() - count;
        let below = &self.parts[start..];
        list_numbers(&mut self.children, below)?;
        let place = place_over(place, below);
        let levels = levels_over(is_part(head), below);
        let number = self
            .maker
            .push(Node { place, form }, self.children.as_slice())?;
        self.parts.truncate(start);
        self.parts.push(Part {
            number: Some(number),
            place,
            levels,
        })?;
        Ok(())
    }
}

/// The form of a head; the value of a text is put behind the units of the tree.
fn form_of(
    maker: &mut TreeMaker,
    text: &mut Vec<u16>,
    script: &[u16],
    tokens: &[Token],
    head: Head,
) -> Result<Form, BuildError>
    requires { All (IsTokenOf script.now) tokens.now }
    ensures is_form { IfOk result
        (λ form. (more : List ℕ) → IsFormOf script.now (maker.new.units ++ more) head form) }
    ensures grown { GrowsBy maker.old maker.new }
    ensures put { IfOk result (λ form. IsPut (text_of form) maker.old.units maker.new.units) }
    ensures refused { IfErr result
        (λ e. e ≡ BuildError.NoPhrase → AreInOrder tokens.now → HasForm script.now tokens.now head
        → ⊥) }
{
    match head {
        Head::Single(lexeme) => single_form(maker, text, script, tokens, lexeme),
        Head::Entry(lexeme) => Ok(Form::Entry(key_of(maker, text, script, tokens, lexeme)?)),
        _ => match plain_form(head) {
            Some(form) => Ok(form),
            None => Err(BuildError::NoPhrase),
        },
    }
}

/// The form of `this`, a name or a literal (ECMA-262 11.1.1 to 11.1.3).
fn single_form(
    maker: &mut TreeMaker,
    text: &mut Vec<u16>,
    script: &[u16],
    tokens: &[Token],
    lexeme: Lexeme,
) -> Result<Form, BuildError>
    requires { All (IsTokenOf script.now) tokens.now }
    ensures is_form { IfOk result
        (λ form. (more : List ℕ) → IsSingle script.now (maker.new.units ++ more) lexeme lexeme.word
        form) }
    ensures grown { GrowsBy maker.old maker.new }
    ensures put { IfOk result (λ form. IsPut (text_of form) maker.old.units maker.new.units) }
    ensures refused { IfErr result
        (λ e. e ≡ BuildError.NoPhrase → AreInOrder tokens.now → (is_single lexeme.word ≡ true)
        × IsReadable script.now tokens.now lexeme lexeme.word → ⊥) }
{
    match lexeme.word {
        Word::This => Ok(Form::This),
        Word::Name => Ok(Form::Name(piece_of(lexeme))),
        Word::Null => Ok(Form::Null),
        Word::True => Ok(Form::Boolean(true)),
        Word::False => Ok(Form::Boolean(false)),
        Word::Numeral => Ok(Form::Number(numeral_of(script, lexeme)?)),
        Word::Text => Ok(Form::Text(literal_of(maker, text, script, tokens, lexeme)?)),
        _ => Err(BuildError::NoPhrase),
    }
}

/// The key of an entry of an object literal (ECMA-262 11.1.5).
fn key_of(
    maker: &mut TreeMaker,
    text: &mut Vec<u16>,
    script: &[u16],
    tokens: &[Token],
    lexeme: Lexeme,
) -> Result<Key, BuildError>
    requires { All (IsTokenOf script.now) tokens.now }
    ensures is_key { IfOk result
        (λ key. (more : List ℕ) → IsKey script.now (maker.new.units ++ more) lexeme lexeme.word
        key) }
    ensures grown { GrowsBy maker.old maker.new }
    ensures put { IfOk result
        (λ key. IsPut (text_of (Form.Entry key)) maker.old.units maker.new.units) }
    ensures refused { IfErr result
        (λ e. e ≡ BuildError.NoPhrase → AreInOrder tokens.now
        → IsReadable script.now tokens.now lexeme lexeme.word → ⊥) }
{
    match lexeme.word {
        Word::Text => Ok(Key::Text(literal_of(maker, text, script, tokens, lexeme)?)),
        Word::Numeral => Ok(Key::Number(numeral_of(script, lexeme)?)),
        _ => Ok(Key::Name(piece_of(lexeme))),
    }
}
