//! The machine where a statement is wanted, or has ended.

ghost use Rattle.std.specs.Prelude.{◌≡◌, ◌<◌, ◌∷◌, Bool, IfOk, OnOk, length};
ghost use Rattle.rip_automaton.specs.Statements.{brace_ends, catch_name, clause, clause_by, clause_ends, clause_told, close_catch, declaration_begins, default_colon, do_ended, ended, finish, function_ends, open_block, open_catch, script_ends, semicolon, start, try_ended};
ghost use Rattle.rip_parser.specs.Running.{Takes};
ghost use Rattle.rip_parser.specs.Endings.{Ends};

use crate::grammar::is_inserted;
use crate::machine::{Machine, node_at, one_more, sum_of_counts};
use rip_automaton::{Frame, Header, Mode, Owner, Shape, VarRole};
use rip_base::NoMemory;
use rip_grammar::{Event, Head, Lexeme, Word};

/// What comes of the innermost open form where a statement in it has ended.
#[derive(Clone, Copy, Debug, PartialEq, Eq)]
pub(crate) enum Ending {
    /// It has ended too, and what it stands in is next.
    On,
    /// It goes on: whether the lexeme was taken.
    Done(bool),
}

impl Machine {
    /// A clause of a `switch` begins here, or the `switch` ends (ECMA-262 12.11).
    fn clause_by(
        &mut self,
        place: u32,
        count: u32,
        default: bool,
        lexeme: Lexeme,
    ) -> Result<bool, NoMemory>
        ensures { IfOk result
            (λ taken. Takes taken self.new
            (clause_by lexeme.word place count default self.old.stack self.old.events lexeme)) }
    {
        match lexeme.word {
            Word::Case => {
                self.push(Frame::Switch(place, count, default))?;
                self.open(Frame::Case(lexeme.start), Mode::Operand)
            }
            Word::Default => {
                if default {
                    return Ok(false);
                }
                self.push(Frame::Switch(place, count, true))?;
                self.open(Frame::Default(lexeme.start, 0), Mode::DefaultColon)
            }
            Word::CloseBrace => {
                let parts = sum_of_counts(1, count)?;
                self.end(node_at(place, Head::Switch, parts), Mode::Ended)
            }
            _ => Ok(false),
        }
    }

    /// `case`, `default` or `}` is wanted.
    pub(crate) fn clause(&mut self, lexeme: Lexeme) -> Result<bool, NoMemory>
        ensures { IfOk result
            (λ taken. Takes taken self.new (clause self.old.stack self.old.events lexeme)) }
    {
        match self.pop() {
            Some(Frame::Switch(place, count, default)) => {
                self.clause_by(place, count, default, lexeme)
            }
            _ => Ok(false),
        }
    }

    /// A clause has ended.
    fn clause_told(&mut self, lexeme: Lexeme) -> Result<bool, NoMemory>
        ensures { IfOk result
            (λ taken. Takes taken self.new (clause_told self.old.stack self.old.events lexeme)) }
    {
        match self.pop() {
            Some(Frame::Switch(place, count, default)) => {
                let clauses = one_more(count)?;
                self.clause_by(place, clauses, default, lexeme)
            }
            _ => Ok(false),
        }
    }

    /// The statements of a `case` end before this lexeme.
    fn case_ends(&mut self, place: u32, count: u32, lexeme: Lexeme) -> Result<bool, NoMemory>
        ensures { IfOk result
            (λ taken. Takes taken self.new
            (clause_ends (Frame.CaseBody place count ∷ self.old.stack) self.old.events lexeme)) }
    {
        let parts = sum_of_counts(1, count)?;
        self.tell(node_at(place, Head::Case, parts))?;
        self.clause_told(lexeme)
    }

    /// The statements of a `default` end before this lexeme.
    fn default_ends(&mut self, place: u32, count: u32, lexeme: Lexeme) -> Result<bool, NoMemory>
        ensures { IfOk result
            (λ taken. Takes taken self.new
            (clause_ends (Frame.Default place count ∷ self.old.stack) self.old.events lexeme)) }
    {
        self.tell(node_at(place, Head::Default, count))?;
        self.clause_told(lexeme)
    }

    /// The statements of a clause end before this lexeme.
    fn clause_ends(&mut self, lexeme: Lexeme) -> Result<bool, NoMemory>
        ensures { IfOk result
            (λ taken. Takes taken self.new (clause_ends self.old.stack self.old.events lexeme)) }
    {
        match self.pop() {
            Some(Frame::CaseBody(place, count)) => self.case_ends(place, count, lexeme),
            Some(Frame::Default(place, count)) => self.default_ends(place, count, lexeme),
            _ => Ok(false),
        }
    }

    /// A function with so many parameters and statements has ended (ECMA-262 13).
    fn function_ends(&mut self, owner: Owner, parameters: u32, count: u32) -> Result<bool, NoMemory>
        ensures { IfOk result
            (λ taken. Takes taken self.new
            (function_ends owner parameters count self.old.stack self.old.events)) }
    {
        let parts = sum_of_counts(parameters, count)?;
        match owner {
            Owner::Expression(place, name) => {
                let head = Head::Function(name, parameters);
                self.end(node_at(place, head, parts), Mode::After(Shape::Plain))
            }
            Owner::Declaration(place, name) => {
                let head = Head::Declaration(name, parameters);
                self.end(node_at(place, head, parts), Mode::Ended)
            }
        }
    }

    /// `}` ends a list of statements.
    fn brace_ends(&mut self, lexeme: Lexeme) -> Result<bool, NoMemory>
        ensures { IfOk result
            (λ taken. Takes taken self.new (brace_ends self.old.stack self.old.events lexeme)) }
    {
        match self.pop() {
            Some(Frame::Block(place, count)) => {
                self.end(node_at(place, Head::Block, count), Mode::Ended)
            }
            Some(Frame::Body(owner, parameters, count)) => {
                self.function_ends(owner, parameters, count)
            }
            Some(Frame::CaseBody(place, count)) => self.case_ends(place, count, lexeme),
            Some(Frame::Default(place, count)) => self.default_ends(place, count, lexeme),
            _ => Ok(false),
        }
    }

    /// The end ends the script.
    fn script_ends(&mut self) -> Result<bool, NoMemory>
        ensures { IfOk result
            (λ taken. Takes taken self.new (script_ends self.old.stack self.old.events)) }
    {
        match self.pop() {
            Some(Frame::Script) => self.want(Mode::Done),
            _ => Ok(false),
        }
    }

    /// A function declaration begins, in a script or a body (ECMA-262 14).
    fn declaration_begins(&mut self, lexeme: Lexeme) -> Result<bool, NoMemory>
        ensures { IfOk result
            (λ taken. Takes taken self.new
            (declaration_begins self.old.stack self.old.events lexeme)) }
    {
        let mode = Mode::DeclarationName(lexeme.start);
        match self.pop() {
            Some(Frame::Script) => self.open(Frame::Script, mode),
            Some(Frame::Body(owner, parameters, count)) => {
                self.open(Frame::Body(owner, parameters, count), mode)
            }
            _ => Ok(false),
        }
    }

    /// A statement is wanted, or the end of a list of them (ECMA-262 12, 14).
    pub(crate) fn start(&mut self, lexeme: Lexeme) -> Result<bool, NoMemory>
        ensures { IfOk result
            (λ taken. Takes taken self.new (start self.old.stack self.old.events lexeme)) }
    {
        let place = lexeme.start;
        match lexeme.word {
            Word::OpenBrace => self.open(Frame::Block(place, 0), Mode::Statement),
            Word::Semicolon => self.end(node_at(place, Head::Empty, 0), Mode::Ended),
            Word::Var => {
                let declarators = Frame::Declarators(VarRole::Statement, place, 0);
                self.open(declarators, Mode::DeclaratorName)
            }
            Word::If => self.open(Frame::Condition(Header::If, place), Mode::OpenHeader),
            Word::Do => self.open(Frame::Do(place), Mode::Statement),
            Word::While => self.open(Frame::Condition(Header::While, place), Mode::OpenHeader),
            Word::For => self.open(Frame::ForInit(place), Mode::OpenFor),
            Word::Continue => self.end(node_at(place, Head::Continue, 0), Mode::Semicolon),
            Word::Break => self.end(node_at(place, Head::Break, 0), Mode::Semicolon),
            Word::Return => self.open(Frame::Return(place), Mode::Returning),
            Word::Switch => self.open(Frame::Condition(Header::Switch, place), Mode::OpenHeader),
            Word::Throw => self.open(Frame::Throw(place), Mode::Throwing),
            Word::Try => self.open(Frame::Try(place), Mode::OpenBlock),
            Word::Function => self.declaration_begins(lexeme),
            Word::CloseBrace => self.brace_ends(lexeme),
            Word::Case | Word::Default => self.clause_ends(lexeme),
            Word::End => self.script_ends(),
            _ => {
                self.push(Frame::Expression)?;
                self.operand(lexeme)
            }
        }
    }

    /// Behind the statement of a `do` (ECMA-262 12.6.1).
    fn do_ended(&mut self, place: u32, lexeme: Lexeme) -> Result<bool, NoMemory>
        ensures { IfOk result
            (λ taken. Takes taken self.new
            (do_ended lexeme.word place self.old.stack self.old.events)) }
    {
        match lexeme.word {
            Word::While => self.open(Frame::Condition(Header::DoWhile, place), Mode::OpenHeader),
            _ => Ok(false),
        }
    }

    /// Behind the block of a `try` (ECMA-262 12.14).
    fn try_ended(&mut self, place: u32, lexeme: Lexeme) -> Result<bool, NoMemory>
        ensures { IfOk result
            (λ taken. Takes taken self.new
            (try_ended lexeme lexeme.word place self.old.stack self.old.events)) }
    {
        match lexeme.word {
            Word::Catch => self.open(Frame::Handled(place), Mode::OpenCatch(lexeme.start)),
            Word::Finally => {
                self.tell(Event::Absent)?;
                self.open(Frame::Finally(place), Mode::OpenBlock)
            }
            _ => Ok(false),
        }
    }

    /// A statement has ended before this lexeme: so have those that it ends, and then a statement is wanted. An `else`
    /// belongs to the nearest `if` (ECMA-262 12.5).
    pub(crate) fn ended(&mut self, lexeme: Lexeme) -> Result<bool, NoMemory>
        ensures { IfOk result
            (λ taken. Takes taken self.new (ended self.old.stack self.old.events lexeme)) }
    {
        'forms: loop {
            match self.form_ended(lexeme)? {
                Ending::On => {}
                Ending::Done(taken) => return Ok(taken),
            }
        }
    }

    /// The innermost of the open forms ends with the statement in it, or goes on with this lexeme.
    fn form_ended(&mut self, lexeme: Lexeme) -> Result<Ending, NoMemory>
        ensures ends { IfOk result
            (λ ending. Ends ending self.new lexeme (ended self.old.stack self.old.events lexeme)) }
        ensures fewer { IfOk result
            (λ ending. ending ≡ Ending.On → length self.new.stack < length self.old.stack) }
    {
        match self.pop() {
            Some(Frame::Then(place)) => self.branch_ended(place, lexeme),
            Some(Frame::Otherwise(place)) => self.told_ended(node_at(place, Head::If, 3)),
            Some(Frame::While(place)) => self.told_ended(node_at(place, Head::While, 2)),
            Some(Frame::For(place)) => self.told_ended(node_at(place, Head::For, 4)),
            Some(Frame::Catch(place, name)) => {
                self.told_ended(node_at(place, Head::Catch(name), 1))
            }
            Some(Frame::Handled(place)) => self.handled(place, lexeme),
            Some(Frame::Finally(place)) => self.told_ended(node_at(place, Head::Try, 3)),
            Some(Frame::Do(place)) => Ok(Ending::Done(self.do_ended(place, lexeme)?)),
            Some(Frame::Try(place)) => Ok(Ending::Done(self.try_ended(place, lexeme)?)),
            Some(Frame::Script) => self.list_goes_on(Frame::Script, lexeme),
            Some(Frame::Block(place, count)) => {
                let count = one_more(count)?;
                self.list_goes_on(Frame::Block(place, count), lexeme)
            }
            Some(Frame::Body(owner, parameters, count)) => {
                let count = one_more(count)?;
                self.list_goes_on(Frame::Body(owner, parameters, count), lexeme)
            }
            Some(Frame::CaseBody(place, count)) => {
                let count = one_more(count)?;
                self.list_goes_on(Frame::CaseBody(place, count), lexeme)
            }
            Some(Frame::Default(place, count)) => {
                let count = one_more(count)?;
                self.list_goes_on(Frame::Default(place, count), lexeme)
            }
            _ => Ok(Ending::Done(false)),
        }
    }

    /// A form has ended with the statement in it.
    fn told_ended(&mut self, event: Event) -> Result<Ending, NoMemory>
        ensures on { IfOk result (λ ending. ending ≡ Ending.On) }
        ensures told { OnOk result
            (self.new ≡ record self.old { events = event ∷ self.old.events }) }
    {
        self.tell(event)?;
        Ok(Ending::On)
    }

    /// A list of statements goes on, or ends.
    fn list_goes_on(&mut self, list: Frame, lexeme: Lexeme) -> Result<Ending, NoMemory>
        ensures { IfOk result
            (λ ending. (taken : Bool) × (ending ≡ Ending.Done taken)
            × Takes taken self.new (start (list ∷ self.old.stack) self.old.events lexeme)) }
    {
        self.push(list)?;
        Ok(Ending::Done(self.start(lexeme)?))
    }

    /// The statement of an `if` has ended (ECMA-262 12.5).
    fn branch_ended(&mut self, place: u32, lexeme: Lexeme) -> Result<Ending, NoMemory>
        ensures ends { IfOk result
            (λ ending. Ends ending self.new lexeme
            (ended (Frame.Then place ∷ self.old.stack) self.old.events lexeme)) }
        ensures same { IfOk result
            (λ ending. ending ≡ Ending.On → self.new.stack ≡ self.old.stack) }
    {
        match lexeme.word {
            Word::Else => Ok(Ending::Done(self.open(Frame::Otherwise(place), Mode::Statement)?)),
            _ => self.told_ended(node_at(place, Head::If, 2)),
        }
    }

    /// The catch clause of a `try` has ended (ECMA-262 12.14).
    fn handled(&mut self, place: u32, lexeme: Lexeme) -> Result<Ending, NoMemory>
        ensures ends { IfOk result
            (λ ending. Ends ending self.new lexeme
            (ended (Frame.Handled place ∷ self.old.stack) self.old.events lexeme)) }
        ensures same { IfOk result
            (λ ending. ending ≡ Ending.On → self.new.stack ≡ self.old.stack) }
    {
        match lexeme.word {
            Word::Finally => Ok(Ending::Done(self.open(Frame::Finally(place), Mode::OpenBlock)?)),
            _ => {
                self.tell(Event::Absent)?;
                self.told_ended(node_at(place, Head::Try, 3))
            }
        }
    }

    /// A statement ends here, with `;` or with the empty spelling: then this lexeme stands behind it (ECMA-262 7.9).
    pub(crate) fn finish(&mut self, inserted: bool, lexeme: Lexeme) -> Result<bool, NoMemory>
        ensures { IfOk result
            (λ taken. Takes taken self.new
            (finish inserted self.old.stack self.old.events lexeme)) }
    {
        match lexeme.word {
            Word::Semicolon => self.want(Mode::Ended),
            _ => {
                if inserted {
                    self.ended(lexeme)
                } else {
                    Ok(false)
                }
            }
        }
    }

    /// The `;` of a statement that nothing continues is wanted.
    pub(crate) fn semicolon(&mut self, lexeme: Lexeme) -> Result<bool, NoMemory>
        ensures { IfOk result
            (λ taken. Takes taken self.new (semicolon self.old.stack self.old.events lexeme)) }
    {
        self.finish(is_inserted(lexeme), lexeme)
    }

    /// The `:` behind `default` is wanted.
    pub(crate) fn default_colon(&mut self, lexeme: Lexeme) -> Result<bool, NoMemory>
        ensures { IfOk result
            (λ taken. Takes taken self.new (default_colon self.old.stack self.old.events lexeme)) }
    {
        match lexeme.word {
            Word::Colon => self.want(Mode::Statement),
            _ => Ok(false),
        }
    }

    /// The `{` of a block in a `try` is wanted.
    pub(crate) fn open_block(&mut self, lexeme: Lexeme) -> Result<bool, NoMemory>
        ensures { IfOk result
            (λ taken. Takes taken self.new (open_block self.old.stack self.old.events lexeme)) }
    {
        match lexeme.word {
            Word::OpenBrace => self.open(Frame::Block(lexeme.start, 0), Mode::Statement),
            _ => Ok(false),
        }
    }

    /// The `(` behind `catch` is wanted.
    pub(crate) fn open_catch(&mut self, place: u32, lexeme: Lexeme) -> Result<bool, NoMemory>
        ensures { IfOk result
            (λ taken. Takes taken self.new
            (open_catch place self.old.stack self.old.events lexeme)) }
    {
        match lexeme.word {
            Word::OpenParenthesis => self.want(Mode::CatchName(place)),
            _ => Ok(false),
        }
    }

    /// The name that a `catch` binds is wanted.
    pub(crate) fn catch_name(&mut self, place: u32, lexeme: Lexeme) -> Result<bool, NoMemory>
        ensures { IfOk result
            (λ taken. Takes taken self.new
            (catch_name place self.old.stack self.old.events lexeme)) }
    {
        match lexeme.word {
            Word::Name => self.open(Frame::Catch(place, lexeme), Mode::CloseCatch),
            _ => Ok(false),
        }
    }

    /// The `)` behind that name is wanted.
    pub(crate) fn close_catch(&mut self, lexeme: Lexeme) -> Result<bool, NoMemory>
        ensures { IfOk result
            (λ taken. Takes taken self.new (close_catch self.old.stack self.old.events lexeme)) }
    {
        match lexeme.word {
            Word::CloseParenthesis => self.want(Mode::OpenBlock),
            _ => Ok(false),
        }
    }
}
