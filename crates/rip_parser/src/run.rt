//! The machine on all lexemes of a script.

ghost use Rattle.std.specs.Prelude.{◌≡◌, ◌++◌, ◌∷◌, [], ℕ, IfOk, IfErr, List, Some, reverse};
ghost use Rattle.rip_automaton.specs.declared.frame.Frame.{Frame as Frame'};
ghost use Rattle.rip_grammar.specs.declared.word.Lexeme.{Lexeme as Lexeme'};
ghost use Rattle.rip_automaton.specs.Machine.{begins, go, step};
ghost use Rattle.rip_automaton.specs.States.{At};
ghost use Rattle.rip_parser.specs.Running.{Takes};
ghost use Rattle.rip_parser.specs.Parsed.{EndsInEnd, IsUnexpectedBy};

use crate::machine::Machine;
use crate::refusal::{ParseKind, ParseRefusal};
use rip_automaton::Mode;
use rip_base::NoMemory;
use rip_grammar::{Event, Lexeme};
use std::alloc::Global;

impl Machine {
    /// Takes one lexeme, or refuses it.
    pub(crate) fn step(&mut self, lexeme: Lexeme) -> Result<bool, NoMemory>
        ensures { IfOk result
            (λ taken. Takes taken self.new
            (step self.old.mode self.old.stack self.old.events lexeme)) }
    {
        match self.mode {
            Mode::Operand => self.operand(lexeme),
            Mode::After(shape) => self.after(shape, lexeme),
            Mode::Member => self.member(lexeme),
            Mode::Argument => self.argument(lexeme),
            Mode::Element => self.element(lexeme),
            Mode::Key => self.key(lexeme),
            Mode::EntryColon => self.entry_colon(lexeme),
            Mode::FunctionName(place) => self.function_name(place, lexeme),
            Mode::DeclarationName(place) => self.declaration_name(place, lexeme),
            Mode::OpenParameters => self.open_parameters(lexeme),
            Mode::FirstParameter => self.first_parameter(lexeme),
            Mode::Parameter => self.parameter(lexeme),
            Mode::AfterParameter => self.after_parameter(lexeme),
            Mode::OpenBody => self.open_body(lexeme),
            Mode::Statement => self.start(lexeme),
            Mode::Ended => self.ended(lexeme),
            Mode::Semicolon => self.semicolon(lexeme),
            Mode::DeclaratorName => self.declarator_name(lexeme),
            Mode::AfterName(name) => self.after_name(name, lexeme),
            Mode::Returning => self.returning(lexeme),
            Mode::Throwing => self.throwing(lexeme),
            Mode::OpenHeader => self.open_header(lexeme),
            Mode::OpenSwitch => self.open_switch(lexeme),
            Mode::Clause => self.clause(lexeme),
            Mode::DefaultColon => self.default_colon(lexeme),
            Mode::OpenFor => self.open_for(lexeme),
            Mode::ForInit => self.for_init(lexeme),
            Mode::ForTest => self.for_test(lexeme),
            Mode::ForUpdate => self.for_update(lexeme),
            Mode::OpenBlock => self.open_block(lexeme),
            Mode::OpenCatch(place) => self.open_catch(place, lexeme),
            Mode::CatchName(place) => self.catch_name(place, lexeme),
            Mode::CloseCatch => self.close_catch(lexeme),
            Mode::Done => Ok(false),
        }
    }
}

/// What is told of a script, or the first lexeme with which no script goes on.
pub(crate) fn run(alloc: Global, lexemes: &[Lexeme]) -> Result<Vec<Event>, ParseRefusal>
    requires { EndsInEnd lexemes.now }
    ensures told { IfOk result
        (λ events. (stack : List Frame')
        × (go begins lexemes.now ≡ Some (At Mode.Done stack (reverse events.items)))) }
    ensures refused { IfErr result (IsUnexpectedBy lexemes.now) }
{
    let mut machine = Machine::new(alloc)?;
    for lexeme in lexemes {
        if !machine.step(*lexeme)? {
            return Err(ParseRefusal::At {
                place: lexeme.start,
                kind: ParseKind::Unexpected,
            });
        }
    }
    Ok(machine.events)
}
