//! The machine in declarators, in headers, and behind `return` and `throw`.

ghost use Rattle.std.specs.Prelude.{IfOk, ◌∷◌};
ghost use Rattle.rip_automaton.specs.Headers.{after_name, declarator_name, declarators_ended, declared, for_init, for_test, for_update, init_ended, open_for, open_header, open_switch, return_ends, returning, test_ended, throwing, update_ended};
ghost use Rattle.rip_parser.specs.Running.{Takes};

use crate::grammar::{is_inserted, is_inserted_behind_name};
use crate::machine::{Machine, node_at, one_more};
use rip_automaton::{Frame, Mode, VarRole};
use rip_base::NoMemory;
use rip_grammar::{Event, Head, Lexeme, Word};

impl Machine {
    /// The init of a `for` has ended, before this lexeme (ECMA-262 12.6.3).
    pub(crate) fn init_ended(&mut self, lexeme: Lexeme) -> Result<bool, NoMemory>
        ensures { IfOk result
            (λ taken. Takes taken self.new (init_ended self.old.stack self.old.events lexeme)) }
    {
        match self.pop() {
            Some(Frame::ForInit(place)) => match lexeme.word {
                Word::Semicolon => self.open(Frame::ForTest(place), Mode::ForTest),
                _ => Ok(false),
            },
            _ => Ok(false),
        }
    }

    /// So many declarators have ended, before this lexeme (ECMA-262 12.2, 12.6.3).
    fn declarators_ended(
        &mut self,
        role: VarRole,
        inserted: bool,
        place: u32,
        count: u32,
        lexeme: Lexeme,
    ) -> Result<bool, NoMemory>
        ensures { IfOk result
            (λ taken. Takes taken self.new
            (declarators_ended role inserted place count self.old.stack self.old.events lexeme)) }
    {
        match role {
            VarRole::Statement => {
                self.tell(node_at(place, Head::Var, count))?;
                self.finish(inserted, lexeme)
            }
            VarRole::Init => {
                self.tell(node_at(place, Head::Bindings, count))?;
                self.init_ended(lexeme)
            }
        }
    }

    /// A declarator has ended, before this lexeme.
    pub(crate) fn declared(&mut self, inserted: bool, lexeme: Lexeme) -> Result<bool, NoMemory>
        ensures { IfOk result
            (λ taken. Takes taken self.new
            (declared inserted self.old.stack self.old.events lexeme)) }
    {
        match self.pop() {
            Some(Frame::Declarators(role, place, count)) => {
                let count = one_more(count)?;
                match lexeme.word {
                    Word::Comma => {
                        self.open(Frame::Declarators(role, place, count), Mode::DeclaratorName)
                    }
                    _ => self.declarators_ended(role, inserted, place, count, lexeme),
                }
            }
            _ => Ok(false),
        }
    }

    /// The name of a declarator is wanted.
    pub(crate) fn declarator_name(&mut self, lexeme: Lexeme) -> Result<bool, NoMemory>
        ensures { IfOk result
            (λ taken. Takes taken self.new
            (declarator_name self.old.stack self.old.events lexeme)) }
    {
        match lexeme.word {
            Word::Name => self.want(Mode::AfterName(lexeme)),
            _ => Ok(false),
        }
    }

    /// Behind the name of a declarator.
    pub(crate) fn after_name(&mut self, name: Lexeme, lexeme: Lexeme) -> Result<bool, NoMemory>
        ensures { IfOk result
            (λ taken. Takes taken self.new
            (after_name name self.old.stack self.old.events lexeme)) }
    {
        match lexeme.word {
            Word::Assign => {
                let bars = self.top_bars();
                self.open(Frame::Initialised(name, bars), Mode::Operand)
            }
            _ => {
                self.tell(node_at(name.start, Head::Declarator(name), 0))?;
                self.declared(is_inserted_behind_name(lexeme), lexeme)
            }
        }
    }

    /// A `return` with no expression ends (ECMA-262 12.9).
    fn return_ends(&mut self, inserted: bool, lexeme: Lexeme) -> Result<bool, NoMemory>
        ensures { IfOk result
            (λ taken. Takes taken self.new
            (return_ends inserted self.old.stack self.old.events lexeme)) }
    {
        match self.pop() {
            Some(Frame::Return(place)) => {
                self.tell(Event::Absent)?;
                self.tell(node_at(place, Head::Return, 1))?;
                self.finish(inserted, lexeme)
            }
            _ => Ok(false),
        }
    }

    /// Behind `return`: it ends here, or an expression begins on its line (ECMA-262 7.9.1, 12.9).
    pub(crate) fn returning(&mut self, lexeme: Lexeme) -> Result<bool, NoMemory>
        ensures { IfOk result
            (λ taken. Takes taken self.new (returning self.old.stack self.old.events lexeme)) }
    {
        match lexeme.word {
            Word::Semicolon => self.return_ends(false, lexeme),
            _ => {
                if is_inserted(lexeme) {
                    self.return_ends(true, lexeme)
                } else {
                    self.operand(lexeme)
                }
            }
        }
    }

    /// Behind `throw`: an expression begins on its line (ECMA-262 7.9.1, 12.13).
    pub(crate) fn throwing(&mut self, lexeme: Lexeme) -> Result<bool, NoMemory>
        ensures { IfOk result
            (λ taken. Takes taken self.new (throwing self.old.stack self.old.events lexeme)) }
    {
        if lexeme.line_before {
            Ok(false)
        } else {
            self.operand(lexeme)
        }
    }

    /// The `(` of a header is wanted.
    pub(crate) fn open_header(&mut self, lexeme: Lexeme) -> Result<bool, NoMemory>
        ensures { IfOk result
            (λ taken. Takes taken self.new (open_header self.old.stack self.old.events lexeme)) }
    {
        match lexeme.word {
            Word::OpenParenthesis => self.want(Mode::Operand),
            _ => Ok(false),
        }
    }

    /// The `{` of a `switch` is wanted.
    pub(crate) fn open_switch(&mut self, lexeme: Lexeme) -> Result<bool, NoMemory>
        ensures { IfOk result
            (λ taken. Takes taken self.new (open_switch self.old.stack self.old.events lexeme)) }
    {
        match lexeme.word {
            Word::OpenBrace => self.want(Mode::Clause),
            _ => Ok(false),
        }
    }

    /// The `(` behind `for` is wanted.
    pub(crate) fn open_for(&mut self, lexeme: Lexeme) -> Result<bool, NoMemory>
        ensures { IfOk result
            (λ taken. Takes taken self.new (open_for self.old.stack self.old.events lexeme)) }
    {
        match lexeme.word {
            Word::OpenParenthesis => self.want(Mode::ForInit),
            _ => Ok(false),
        }
    }

    /// The init of a `for` is wanted, or `;`.
    pub(crate) fn for_init(&mut self, lexeme: Lexeme) -> Result<bool, NoMemory>
        ensures { IfOk result
            (λ taken. Takes taken self.new (for_init self.old.stack self.old.events lexeme)) }
    {
        match lexeme.word {
            Word::Semicolon => {
                self.tell(Event::Absent)?;
                self.init_ended(lexeme)
            }
            Word::Var => {
                let declarators = Frame::Declarators(VarRole::Init, lexeme.start, 0);
                self.open(declarators, Mode::DeclaratorName)
            }
            _ => self.operand(lexeme),
        }
    }

    /// The test of a `for` has ended.
    pub(crate) fn test_ended(&mut self) -> Result<bool, NoMemory>
        ensures { IfOk result
            (λ taken. Takes taken self.new (test_ended self.old.stack self.old.events)) }
    {
        match self.pop() {
            Some(Frame::ForTest(place)) => self.open(Frame::ForUpdate(place), Mode::ForUpdate),
            _ => Ok(false),
        }
    }

    /// The test of a `for` is wanted, or `;`.
    pub(crate) fn for_test(&mut self, lexeme: Lexeme) -> Result<bool, NoMemory>
        ensures { IfOk result
            (λ taken. Takes taken self.new (for_test self.old.stack self.old.events lexeme)) }
    {
        match lexeme.word {
            Word::Semicolon => {
                self.tell(Event::Absent)?;
                self.test_ended()
            }
            _ => self.operand(lexeme),
        }
    }

    /// The update of a `for` has ended.
    pub(crate) fn update_ended(&mut self) -> Result<bool, NoMemory>
        ensures { IfOk result
            (λ taken. Takes taken self.new (update_ended self.old.stack self.old.events)) }
    {
        match self.pop() {
            Some(Frame::ForUpdate(place)) => self.open(Frame::For(place), Mode::Statement),
            _ => Ok(false),
        }
    }

    /// The update of a `for` is wanted, or `)`.
    pub(crate) fn for_update(&mut self, lexeme: Lexeme) -> Result<bool, NoMemory>
        ensures { IfOk result
            (λ taken. Takes taken self.new (for_update self.old.stack self.old.events lexeme)) }
    {
        match lexeme.word {
            Word::CloseParenthesis => {
                self.tell(Event::Absent)?;
                self.update_ended()
            }
            _ => self.operand(lexeme),
        }
    }
}
