//! The machine where an operand, or a part of one, is wanted.

ghost use Rattle.std.specs.Prelude.{IfOk};
ghost use Rattle.rip_automaton.specs.Operands.{after_parameter, argument, arguments_end, body_begins, declaration_name, element, elements_end, entries_end, entry_begins, entry_colon, first_parameter, function_name, key, member, no_argument, open_body, open_parameters, opening, operand, parameter, parameter_read, prefix};
ghost use Rattle.rip_parser.specs.Running.{Takes};

use crate::grammar::{is_identifier_name, is_key, is_prefix, is_single, single_shape};
use crate::levels::PREFIX;
use crate::machine::{Machine, node_at, node_behind, one_more, sum_of_counts};
use rip_automaton::{Frame, Invocation, Mode, Owner, Pending, Shape};
use rip_base::NoMemory;
use rip_grammar::{Head, Lexeme, Word};

impl Machine {
    /// An operand is wanted (ECMA-262 11.1, 11.2.2, 11.4, 13).
    pub(crate) fn operand(&mut self, lexeme: Lexeme) -> Result<bool, NoMemory>
        ensures { IfOk result
            (λ taken. Takes taken self.new (operand self.old.stack self.old.events lexeme)) }
    {
        if is_prefix(lexeme.word) {
            self.prefix(lexeme)
        } else if is_single(lexeme.word) {
            self.end(
                node_at(lexeme.start, Head::Single(lexeme), 0),
                Mode::After(single_shape(lexeme.word)),
            )
        } else {
            self.opening(lexeme)
        }
    }

    /// An operator before its operand, where it may stand.
    fn prefix(&mut self, lexeme: Lexeme) -> Result<bool, NoMemory>
        ensures { IfOk result
            (λ taken. Takes taken self.new (prefix self.old.stack self.old.events lexeme)) }
    {
        if self.top_floor() <= PREFIX {
            let bars = self.top_bars();
            let pending = Pending::Prefix(lexeme.start, lexeme.word);
            self.open(Frame::Operator(pending, bars), Mode::Operand)
        } else {
            Ok(false)
        }
    }

    /// What begins an operand and is neither an operator nor an operand alone.
    fn opening(&mut self, lexeme: Lexeme) -> Result<bool, NoMemory>
        ensures { IfOk result
            (λ taken. Takes taken self.new
            (opening lexeme.word self.old.stack self.old.events lexeme)) }
    {
        let place = lexeme.start;
        match lexeme.word {
            Word::OpenParenthesis => self.open(Frame::Parenthesis(place), Mode::Operand),
            Word::OpenBracket => self.open(Frame::Elements(place, 0), Mode::Element),
            Word::OpenBrace => self.open(Frame::Object(place, 0), Mode::Key),
            Word::Function => self.want(Mode::FunctionName(place)),
            Word::New => {
                let bars = self.top_bars();
                self.open(Frame::Operator(Pending::New(place), bars), Mode::Operand)
            }
            _ => Ok(false),
        }
    }

    /// The name behind `.` is wanted (ECMA-262 11.2.1).
    pub(crate) fn member(&mut self, lexeme: Lexeme) -> Result<bool, NoMemory>
        ensures { IfOk result
            (λ taken. Takes taken self.new (member self.old.stack self.old.events lexeme)) }
    {
        if is_identifier_name(lexeme.word) {
            self.end(
                node_behind(Head::Member(lexeme), 1),
                Mode::After(Shape::Target),
            )
        } else {
            Ok(false)
        }
    }

    /// So many arguments end (ECMA-262 11.2.2, 11.2.3).
    pub(crate) fn arguments_end(
        &mut self,
        invocation: Invocation,
        count: u32,
    ) -> Result<bool, NoMemory>
        ensures { IfOk result
            (λ taken. Takes taken self.new
            (arguments_end invocation count self.old.stack self.old.events)) }
    {
        let parts = sum_of_counts(1, count)?;
        let event = match invocation {
            Invocation::Call => node_behind(Head::Call, parts),
            Invocation::New(place) => node_at(place, Head::New, parts),
        };
        self.end(event, Mode::After(Shape::Plain))
    }

    /// A call or a `new` has no argument.
    fn no_argument(&mut self) -> Result<bool, NoMemory>
        ensures { IfOk result
            (λ taken. Takes taken self.new (no_argument self.old.stack self.old.events)) }
    {
        match self.pop() {
            Some(Frame::Arguments(invocation, count)) => self.arguments_end(invocation, count),
            _ => Ok(false),
        }
    }

    /// The first argument is wanted, or `)`.
    pub(crate) fn argument(&mut self, lexeme: Lexeme) -> Result<bool, NoMemory>
        ensures { IfOk result
            (λ taken. Takes taken self.new (argument self.old.stack self.old.events lexeme)) }
    {
        match lexeme.word {
            Word::CloseParenthesis => self.no_argument(),
            _ => self.operand(lexeme),
        }
    }

    /// An array literal ends, at once or behind a comma (ECMA-262 11.1.4).
    fn elements_end(&mut self) -> Result<bool, NoMemory>
        ensures { IfOk result
            (λ taken. Takes taken self.new (elements_end self.old.stack self.old.events)) }
    {
        match self.pop() {
            Some(Frame::Elements(place, count)) => self.end(
                node_at(place, Head::Array, count),
                Mode::After(Shape::Plain),
            ),
            _ => Ok(false),
        }
    }

    /// An element is wanted, or `]`.
    pub(crate) fn element(&mut self, lexeme: Lexeme) -> Result<bool, NoMemory>
        ensures { IfOk result
            (λ taken. Takes taken self.new (element self.old.stack self.old.events lexeme)) }
    {
        match lexeme.word {
            Word::CloseBracket => self.elements_end(),
            _ => self.operand(lexeme),
        }
    }

    /// An object literal goes on with this key (ECMA-262 11.1.5).
    fn entry_begins(&mut self, lexeme: Lexeme) -> Result<bool, NoMemory>
        ensures { IfOk result
            (λ taken. Takes taken self.new (entry_begins self.old.stack self.old.events lexeme)) }
    {
        match self.pop() {
            Some(Frame::Object(place, count)) => {
                self.open(Frame::Entry(place, count, lexeme), Mode::EntryColon)
            }
            _ => Ok(false),
        }
    }

    /// An object literal ends, at once or behind a comma.
    fn entries_end(&mut self) -> Result<bool, NoMemory>
        ensures { IfOk result
            (λ taken. Takes taken self.new (entries_end self.old.stack self.old.events)) }
    {
        match self.pop() {
            Some(Frame::Object(place, count)) => self.end(
                node_at(place, Head::Object, count),
                Mode::After(Shape::Plain),
            ),
            _ => Ok(false),
        }
    }

    /// A key is wanted, or `}`.
    pub(crate) fn key(&mut self, lexeme: Lexeme) -> Result<bool, NoMemory>
        ensures { IfOk result
            (λ taken. Takes taken self.new (key self.old.stack self.old.events lexeme)) }
    {
        match lexeme.word {
            Word::CloseBrace => self.entries_end(),
            word => {
                if is_key(word) {
                    self.entry_begins(lexeme)
                } else {
                    Ok(false)
                }
            }
        }
    }

    /// The `:` behind a key is wanted.
    pub(crate) fn entry_colon(&mut self, lexeme: Lexeme) -> Result<bool, NoMemory>
        ensures { IfOk result
            (λ taken. Takes taken self.new (entry_colon self.old.stack self.old.events lexeme)) }
    {
        match lexeme.word {
            Word::Colon => self.want(Mode::Operand),
            _ => Ok(false),
        }
    }

    /// Behind `function`, in an expression: a name or `(` is wanted (ECMA-262 13).
    pub(crate) fn function_name(&mut self, place: u32, lexeme: Lexeme) -> Result<bool, NoMemory>
        ensures { IfOk result
            (λ taken. Takes taken self.new
            (function_name place self.old.stack self.old.events lexeme)) }
    {
        match lexeme.word {
            Word::Name => {
                let owner = Owner::Expression(place, Some(lexeme));
                self.open(Frame::Parameters(owner, 0), Mode::OpenParameters)
            }
            Word::OpenParenthesis => {
                let owner = Owner::Expression(place, None);
                self.open(Frame::Parameters(owner, 0), Mode::FirstParameter)
            }
            _ => Ok(false),
        }
    }

    /// The name of a declaration is wanted.
    pub(crate) fn declaration_name(&mut self, place: u32, lexeme: Lexeme) -> Result<bool, NoMemory>
        ensures { IfOk result
            (λ taken. Takes taken self.new
            (declaration_name place self.old.stack self.old.events lexeme)) }
    {
        match lexeme.word {
            Word::Name => {
                let owner = Owner::Declaration(place, lexeme);
                self.open(Frame::Parameters(owner, 0), Mode::OpenParameters)
            }
            _ => Ok(false),
        }
    }

    /// The `(` before parameters is wanted.
    pub(crate) fn open_parameters(&mut self, lexeme: Lexeme) -> Result<bool, NoMemory>
        ensures { IfOk result
            (λ taken. Takes taken self.new
            (open_parameters self.old.stack self.old.events lexeme)) }
    {
        match lexeme.word {
            Word::OpenParenthesis => self.want(Mode::FirstParameter),
            _ => Ok(false),
        }
    }

    /// One parameter more.
    fn parameter_read(&mut self, lexeme: Lexeme) -> Result<bool, NoMemory>
        ensures { IfOk result
            (λ taken. Takes taken self.new (parameter_read self.old.stack self.old.events lexeme)) }
    {
        match self.pop() {
            Some(Frame::Parameters(owner, count)) => {
                self.push(Frame::Parameters(owner, one_more(count)?))?;
                self.end(
                    node_at(lexeme.start, Head::Parameter(lexeme), 0),
                    Mode::AfterParameter,
                )
            }
            _ => Ok(false),
        }
    }

    /// The first parameter is wanted, or `)`.
    pub(crate) fn first_parameter(&mut self, lexeme: Lexeme) -> Result<bool, NoMemory>
        ensures { IfOk result
            (λ taken. Takes taken self.new
            (first_parameter self.old.stack self.old.events lexeme)) }
    {
        match lexeme.word {
            Word::CloseParenthesis => self.want(Mode::OpenBody),
            Word::Name => self.parameter_read(lexeme),
            _ => Ok(false),
        }
    }

    /// A parameter is wanted.
    pub(crate) fn parameter(&mut self, lexeme: Lexeme) -> Result<bool, NoMemory>
        ensures { IfOk result
            (λ taken. Takes taken self.new (parameter self.old.stack self.old.events lexeme)) }
    {
        match lexeme.word {
            Word::Name => self.parameter_read(lexeme),
            _ => Ok(false),
        }
    }

    /// `,` or `)` is wanted behind a parameter.
    pub(crate) fn after_parameter(&mut self, lexeme: Lexeme) -> Result<bool, NoMemory>
        ensures { IfOk result
            (λ taken. Takes taken self.new
            (after_parameter self.old.stack self.old.events lexeme)) }
    {
        match lexeme.word {
            Word::Comma => self.want(Mode::Parameter),
            Word::CloseParenthesis => self.want(Mode::OpenBody),
            _ => Ok(false),
        }
    }

    /// A body begins behind its parameters.
    fn body_begins(&mut self) -> Result<bool, NoMemory>
        ensures { IfOk result
            (λ taken. Takes taken self.new (body_begins self.old.stack self.old.events)) }
    {
        match self.pop() {
            Some(Frame::Parameters(owner, count)) => {
                self.open(Frame::Body(owner, count, 0), Mode::Statement)
            }
            _ => Ok(false),
        }
    }

    /// The `{` of a body is wanted.
    pub(crate) fn open_body(&mut self, lexeme: Lexeme) -> Result<bool, NoMemory>
        ensures { IfOk result
            (λ taken. Takes taken self.new (open_body self.old.stack self.old.events lexeme)) }
    {
        match lexeme.word {
            Word::OpenBrace => self.body_begins(),
            _ => Ok(false),
        }
    }
}
