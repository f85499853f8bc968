//! The machine behind an operand: what goes on from it, and what ends the form that it stands in.

ghost use Rattle.std.specs.Prelude.{◌≡◌, ◌∷◌, IfOk, OnOk, Some, true};
ghost use Rattle.rip_automaton.specs.Continuations.{after, after_mark, arguments_by, assign, call, case_by, close, comma, elements_by, entries_by, for_test_ended, for_update_ended, header_by, header_ends, index_by, leave, operator, operator_begins, parenthesis_by, postfix, question, reduce, separate, test_by};
ghost use Rattle.rip_automaton.specs.Frames.{told};
ghost use Rattle.rip_parser.specs.Running.{Reduces, Takes, ending, others};

use crate::grammar::{
    binds, closed, enclosed, is_assignment, is_inserted_behind, may_end, pending_level, told,
};
use crate::levels::{ASSIGNMENT, COMMA, OR, POSTFIX};
use crate::machine::{Machine, node_at, node_behind, one_more};
use rip_automaton::{Frame, Header, Invocation, Mode, Pending, Shape};
use rip_base::{BinaryOperator, NoMemory};
use rip_grammar::{Event, Head, Lexeme, Word};

impl Machine {
    /// Ends the open operators that hold at least this tightly, the latest first. Answers the shape of what is left, or
    /// none where one of them may not end with its operand.
    fn reduce(&mut self, level: u32, shape: Shape) -> Result<Option<Shape>, NoMemory>
        ensures { IfOk result
            (λ left. Reduces left self.new (reduce level shape self.old.stack self.old.events)) }
    {
        let mut shape = shape;
        'operators: loop {
            let Some(pending) = self.ending(level) else {
                return Ok(Some(shape));
            };
            if !may_end(pending, shape) {
                return Ok(None);
            }
            self.end_operator(pending)?;
            shape = closed(shape);
        }
    }

    /// The innermost of the open forms, if it is an operator that holds at least this tightly.
    fn ending(&self, level: u32) -> Option<Pending>
        ensures { result ≡ ending level self.now.stack }
    {
        match self.top() {
            Some(Frame::Operator(pending, _)) => {
                if level <= pending_level(pending) {
                    Some(pending)
                } else {
                    None
                }
            }
            _ => None,
        }
    }

    /// The innermost of the open forms ends, an operator.
    fn end_operator(&mut self, pending: Pending) -> Result<(), NoMemory>
        ensures { OnOk result
            (self.new ≡ record self.old
            { stack = others self.old.stack; events = told pending ∷ self.old.events }) }
    {
        self.stack.pop();
        self.tell(told(pending))
    }

    /// All open operators end, and then what the expression stands in goes on or ends.
    fn leave(&mut self, shape: Shape, lexeme: Lexeme) -> Result<bool, NoMemory>
        ensures { IfOk result
            (λ taken. Takes taken self.new (leave shape self.old.stack self.old.events lexeme)) }
    {
        match self.reduce(COMMA, shape)? {
            Some(shape) => self.close(shape, lexeme),
            None => Ok(false),
        }
    }

    /// An operator between two operands begins its last operand.
    fn operator_begins(&mut self, word: Word) -> Result<bool, NoMemory>
        ensures { IfOk result
            (λ taken. Takes taken self.new (operator_begins word self.old.stack self.old.events)) }
    {
        let bars = self.top_bars();
        self.open(Frame::Operator(Pending::Infix(word), bars), Mode::Operand)
    }

    /// An operator of this level; a bare `in` is refused in the init of a `for` (ECMA-262 11.8, 12.6.3).
    fn operator(&mut self, level: u32, shape: Shape, lexeme: Lexeme) -> Result<bool, NoMemory>
        ensures { IfOk result
            (λ taken. Takes taken self.new
            (operator level shape self.old.stack self.old.events lexeme)) }
    {
        if matches!(lexeme.word, Word::Infix(BinaryOperator::In)) && self.top_bars() {
            return Ok(false);
        }
        match self.reduce(level, shape)? {
            Some(_) => self.operator_begins(lexeme.word),
            None => Ok(false),
        }
    }

    /// A comma is an operator where the form takes one, and else it ends a part of the form (ECMA-262 11.14).
    fn separate(&mut self, shape: Shape, lexeme: Lexeme) -> Result<bool, NoMemory>
        ensures { IfOk result
            (λ taken. Takes taken self.new (separate shape self.old.stack self.old.events lexeme)) }
    {
        if self.top_floor() <= COMMA {
            self.operator_begins(lexeme.word)
        } else {
            self.close(shape, lexeme)
        }
    }

    /// A comma stands behind an operand.
    fn comma(&mut self, shape: Shape, lexeme: Lexeme) -> Result<bool, NoMemory>
        ensures { IfOk result
            (λ taken. Takes taken self.new (comma shape self.old.stack self.old.events lexeme)) }
    {
        match self.reduce(COMMA, shape)? {
            Some(shape) => self.separate(shape, lexeme),
            None => Ok(false),
        }
    }

    /// A target is assigned to, where an assignment may stand (ECMA-262 11.13).
    fn assign(&mut self, shape: Shape, lexeme: Lexeme) -> Result<bool, NoMemory>
        ensures { IfOk result
            (λ taken. Takes taken self.new (assign shape self.old.stack self.old.events lexeme)) }
    {
        if matches!(shape, Shape::Target) && self.top_floor() <= ASSIGNMENT {
            let bars = self.top_bars();
            let pending = Pending::Assignment(lexeme.word);
            self.open(Frame::Operator(pending, bars), Mode::Operand)
        } else {
            Ok(false)
        }
    }

    /// The test of `? :` ends (ECMA-262 11.12).
    fn question(&mut self, shape: Shape) -> Result<bool, NoMemory>
        ensures { IfOk result
            (λ taken. Takes taken self.new (question shape self.old.stack self.old.events)) }
    {
        match self.reduce(OR, shape)? {
            Some(_) => self.open(Frame::Test, Mode::Operand),
            None => Ok(false),
        }
    }

    /// Arguments begin: those of the nearest `new`, if the operand stands behind one, or else those of a call
    /// (ECMA-262 11.2.2, 11.2.3).
    fn call(&mut self) -> Result<bool, NoMemory>
        ensures { IfOk result
            (λ taken. Takes taken self.new (call self.old.stack self.old.events)) }
    {
        match self.top() {
            Some(Frame::Operator(Pending::New(place), _)) => {
                self.pop();
                self.open(Frame::Arguments(Invocation::New(place), 0), Mode::Argument)
            }
            _ => self.open(Frame::Arguments(Invocation::Call, 0), Mode::Argument),
        }
    }

    /// `++` or `--` behind a target, where it may stand (ECMA-262 11.3).
    fn postfix(&mut self, shape: Shape, lexeme: Lexeme) -> Result<bool, NoMemory>
        ensures { IfOk result
            (λ taken. Takes taken self.new (postfix shape self.old.stack self.old.events lexeme)) }
    {
        if matches!(shape, Shape::Target) && self.top_floor() <= POSTFIX {
            self.end(
                node_behind(Head::Postfix(lexeme.word), 1),
                Mode::After(Shape::Postfix),
            )
        } else {
            Ok(false)
        }
    }

    /// What is neither an operator between two operands nor an assignment.
    fn after_mark(&mut self, shape: Shape, lexeme: Lexeme) -> Result<bool, NoMemory>
        ensures { IfOk result
            (λ taken. Takes taken self.new
            (after_mark lexeme.word shape self.old.stack self.old.events lexeme)) }
    {
        match lexeme.word {
            Word::Question => self.question(shape),
            Word::Point => match shape {
                Shape::Postfix => Ok(false),
                _ => self.want(Mode::Member),
            },
            Word::OpenParenthesis => match shape {
                Shape::Postfix => self.leave(shape, lexeme),
                _ => self.call(),
            },
            Word::OpenBracket => match shape {
                Shape::Postfix => self.leave(shape, lexeme),
                _ => self.open(Frame::Index, Mode::Operand),
            },
            Word::Step(_) => {
                if lexeme.line_before {
                    self.leave(shape, lexeme)
                } else {
                    self.postfix(shape, lexeme)
                }
            }
            _ => self.leave(shape, lexeme),
        }
    }

    /// An operand was read (ECMA-262 11).
    pub(crate) fn after(&mut self, shape: Shape, lexeme: Lexeme) -> Result<bool, NoMemory>
        ensures { IfOk result
            (λ taken. Takes taken self.new (after shape self.old.stack self.old.events lexeme)) }
    {
        match binds(lexeme.word) {
            0 => {
                if is_assignment(lexeme.word) {
                    self.assign(shape, lexeme)
                } else {
                    self.after_mark(shape, lexeme)
                }
            }
            level => match lexeme.word {
                Word::Comma => self.comma(shape, lexeme),
                _ => self.operator(level, shape, lexeme),
            },
        }
    }

    /// No operator is open: what the expression stands in goes on or ends with this lexeme.
    fn close(&mut self, shape: Shape, lexeme: Lexeme) -> Result<bool, NoMemory>
        ensures { IfOk result
            (λ taken. Takes taken self.new (close shape self.old.stack self.old.events lexeme)) }
    {
        let inserted = is_inserted_behind(matches!(shape, Shape::Postfix), lexeme);
        match self.pop() {
            Some(Frame::Test) => self.test_by(lexeme.word),
            Some(Frame::Parenthesis(place)) => self.parenthesis_by(lexeme.word, place, shape),
            Some(Frame::Index) => self.index_by(lexeme.word),
            Some(Frame::Arguments(invocation, count)) => {
                let count = one_more(count)?;
                self.arguments_by(lexeme.word, invocation, count)
            }
            Some(Frame::Elements(place, count)) => {
                let count = one_more(count)?;
                self.elements_by(lexeme.word, place, count)
            }
            Some(Frame::Entry(place, count, key)) => {
                let count = one_more(count)?;
                self.tell(node_at(key.start, Head::Entry(key), 1))?;
                self.entries_by(lexeme.word, place, count)
            }
            Some(Frame::Initialised(name, _)) => {
                self.tell(node_at(name.start, Head::Declarator(name), 1))?;
                self.declared(inserted, lexeme)
            }
            Some(Frame::Expression) => {
                self.tell(node_behind(Head::Expression, 1))?;
                self.finish(inserted, lexeme)
            }
            Some(Frame::Return(place)) => {
                self.tell(node_at(place, Head::Return, 1))?;
                self.finish(inserted, lexeme)
            }
            Some(Frame::Throw(place)) => {
                self.tell(node_at(place, Head::Throw, 1))?;
                self.finish(inserted, lexeme)
            }
            Some(Frame::Condition(header, place)) => self.header_by(lexeme.word, header, place),
            Some(Frame::ForInit(place)) => {
                self.push(Frame::ForInit(place))?;
                self.init_ended(lexeme)
            }
            Some(Frame::ForTest(place)) => {
                self.push(Frame::ForTest(place))?;
                self.for_test_ended(lexeme.word)
            }
            Some(Frame::ForUpdate(place)) => {
                self.push(Frame::ForUpdate(place))?;
                self.for_update_ended(lexeme.word)
            }
            Some(Frame::Case(place)) => self.case_by(lexeme.word, place),
            _ => Ok(false),
        }
    }

    /// Behind the part of `? :` before `:`.
    fn test_by(&mut self, word: Word) -> Result<bool, NoMemory>
        ensures { IfOk result
            (λ taken. Takes taken self.new (test_by word self.old.stack self.old.events)) }
    {
        match word {
            Word::Colon => {
                let bars = self.top_bars();
                self.open(Frame::Operator(Pending::Choice, bars), Mode::Operand)
            }
            _ => Ok(false),
        }
    }

    /// Behind what stands in parentheses (ECMA-262 11.1.6).
    fn parenthesis_by(&mut self, word: Word, place: u32, shape: Shape) -> Result<bool, NoMemory>
        ensures { IfOk result
            (λ taken. Takes taken self.new
            (parenthesis_by word place shape self.old.stack self.old.events)) }
    {
        match word {
            Word::CloseParenthesis => self.end(
                Event::Parenthesized(place),
                Mode::After(enclosed(shape)),
            ),
            _ => Ok(false),
        }
    }

    /// Behind what stands in the brackets of a member (ECMA-262 11.2.1).
    fn index_by(&mut self, word: Word) -> Result<bool, NoMemory>
        ensures { IfOk result
            (λ taken. Takes taken self.new (index_by word self.old.stack self.old.events)) }
    {
        match word {
            Word::CloseBracket => {
                self.end(node_behind(Head::Index, 2), Mode::After(Shape::Target))
            }
            _ => Ok(false),
        }
    }

    /// Behind so many arguments.
    fn arguments_by(
        &mut self,
        word: Word,
        invocation: Invocation,
        count: u32,
    ) -> Result<bool, NoMemory>
        ensures { IfOk result
            (λ taken. Takes taken self.new
            (arguments_by word invocation count self.old.stack self.old.events)) }
    {
        match word {
            Word::Comma => self.open(Frame::Arguments(invocation, count), Mode::Operand),
            Word::CloseParenthesis => self.arguments_end(invocation, count),
            _ => Ok(false),
        }
    }

    /// Behind so many elements.
    fn elements_by(&mut self, word: Word, place: u32, count: u32) -> Result<bool, NoMemory>
        ensures { IfOk result
            (λ taken. Takes taken self.new
            (elements_by word place count self.old.stack self.old.events)) }
    {
        match word {
            Word::Comma => self.open(Frame::Elements(place, count), Mode::Element),
            Word::CloseBracket => self.end(
                node_at(place, Head::Array, count),
                Mode::After(Shape::Plain),
            ),
            _ => Ok(false),
        }
    }

    /// Behind so many entries.
    fn entries_by(&mut self, word: Word, place: u32, count: u32) -> Result<bool, NoMemory>
        ensures { IfOk result
            (λ taken. Takes taken self.new
            (entries_by word place count self.old.stack self.old.events)) }
    {
        match word {
            Word::Comma => self.open(Frame::Object(place, count), Mode::Key),
            Word::CloseBrace => self.end(
                node_at(place, Head::Object, count),
                Mode::After(Shape::Plain),
            ),
            _ => Ok(false),
        }
    }

    /// Behind the expression of a header.
    fn header_by(&mut self, word: Word, header: Header, place: u32) -> Result<bool, NoMemory>
        ensures { IfOk result
            (λ taken. Takes taken self.new
            (header_by word header place self.old.stack self.old.events)) }
    {
        match word {
            Word::CloseParenthesis => self.header_ends(header, place),
            _ => Ok(false),
        }
    }

    /// A header ends.
    fn header_ends(&mut self, header: Header, place: u32) -> Result<bool, NoMemory>
        ensures { IfOk result
            (λ taken. Takes taken self.new
            (header_ends header place self.old.stack self.old.events)) }
    {
        match header {
            Header::If => self.open(Frame::Then(place), Mode::Statement),
            Header::While => self.open(Frame::While(place), Mode::Statement),
            Header::DoWhile => self.end(node_at(place, Head::DoWhile, 2), Mode::Semicolon),
            Header::Switch => self.open(Frame::Switch(place, 0, false), Mode::OpenSwitch),
        }
    }

    /// Behind the test of a `for`.
    fn for_test_ended(&mut self, word: Word) -> Result<bool, NoMemory>
        ensures { IfOk result
            (λ taken. Takes taken self.new (for_test_ended word self.old.stack self.old.events)) }
    {
        match word {
            Word::Semicolon => self.test_ended(),
            _ => Ok(false),
        }
    }

    /// Behind the update of a `for`.
    fn for_update_ended(&mut self, word: Word) -> Result<bool, NoMemory>
        ensures { IfOk result
            (λ taken. Takes taken self.new (for_update_ended word self.old.stack self.old.events)) }
    {
        match word {
            Word::CloseParenthesis => self.update_ended(),
            _ => Ok(false),
        }
    }

    /// Behind the expression of a `case`.
    fn case_by(&mut self, word: Word, place: u32) -> Result<bool, NoMemory>
        ensures { IfOk result
            (λ taken. Takes taken self.new (case_by word place self.old.stack self.old.events)) }
    {
        match word {
            Word::Colon => self.open(Frame::CaseBody(place, 0), Mode::Statement),
            _ => Ok(false),
        }
    }
}
