ghost use Rattle.std.specs.Prelude.{◌≡◌, IsTrue, ◌↔◌};
ghost use Rattle.rip_parser.specs.Building.{is_part, plain_form};
ghost use Rattle.rip_parser.specs.Shows.{piece_of, infix_form, prefix_form, postfix_form, assignment_form};

use rip_base::{BinaryOperator, UnaryOperator};
use rip_grammar::{Head, Lexeme, Word};
use rip_tree::{Form, FunctionHead, Piece};

/// The piece of a lexeme.
pub(crate) fn piece_of(lexeme: Lexeme) -> Piece
    ensures { result ≡ piece_of lexeme }
{
    Piece {
        start: lexeme.start,
        count: lexeme.count,
    }
}

/// Whether the node is a part of another, and no level of its own.
pub(crate) fn is_part(head: Head) -> bool
    ensures { result ≡ is_part head }
{
    matches!(
        head,
        Head::Entry(_)
            | Head::Declarator(_)
            | Head::Bindings
            | Head::Case
            | Head::Default
            | Head::Catch(_)
            | Head::Parameter(_)
    )
}

/// The form of a head that no value of a literal tells.
pub(crate) fn plain_form(head: Head) -> Option<Form>
    ensures { result ≡ plain_form head }
{
    match head {
        Head::Single(_) | Head::Entry(_) => None,
        Head::Postfix(word) => postfix_form(word),
        Head::Prefix(word) => prefix_form(word),
        Head::Infix(word) => infix_form(word),
        Head::Assignment(word) => assignment_form(word),
        Head::Array => Some(Form::Array),
        Head::Object => Some(Form::Object),
        Head::Member(name) => Some(Form::Member(piece_of(name))),
        Head::Index => Some(Form::Index),
        Head::New => Some(Form::New),
        Head::Call => Some(Form::Call),
        Head::Conditional => Some(Form::Conditional),
        Head::Block => Some(Form::Block),
        Head::Var => Some(Form::Var),
        Head::Declarator(name) => Some(Form::Declarator(piece_of(name))),
        Head::Empty => Some(Form::Empty),
        Head::Expression => Some(Form::Expression),
        Head::If => Some(Form::If),
        Head::DoWhile => Some(Form::DoWhile),
        Head::While => Some(Form::While),
        Head::For => Some(Form::For),
        Head::Bindings => Some(Form::Bindings),
        Head::Continue => Some(Form::Continue),
        Head::Break => Some(Form::Break),
        Head::Return => Some(Form::Return),
        Head::Switch => Some(Form::Switch),
        Head::Case => Some(Form::Case),
        Head::Default => Some(Form::Default),
        Head::Throw => Some(Form::Throw),
        Head::Try => Some(Form::Try),
        Head::Catch(name) => Some(Form::Catch(piece_of(name))),
        Head::Function(None, parameters) => Some(Form::Function(FunctionHead {
            name: None,
            parameters,
        })),
        Head::Function(Some(name), parameters) => Some(Form::Function(FunctionHead {
            name: Some(piece_of(name)),
            parameters,
        })),
        Head::Declaration(name, parameters) => Some(Form::FunctionDeclaration(FunctionHead {
            name: Some(piece_of(name)),
            parameters,
        })),
        Head::Parameter(name) => Some(Form::Parameter(piece_of(name))),
    }
}

/// The form that an operator between two operands makes (ECMA-262 11.5 to 11.11, 11.14).
fn infix_form(word: Word) -> Option<Form>
    ensures { result ≡ infix_form word }
{
    match word {
        Word::Infix(operator) => Some(Form::Binary(operator)),
        Word::Logical(operator) => Some(Form::Logical(operator)),
        Word::Comma => Some(Form::Comma),
        _ => None,
    }
}

/// The form that an operator before its operand makes (ECMA-262 11.4).
fn prefix_form(word: Word) -> Option<Form>
    ensures { result ≡ prefix_form word }
{
    match word {
        Word::Prefix(operator) => Some(Form::Unary(operator)),
        Word::Infix(BinaryOperator::Add) => Some(Form::Unary(UnaryOperator::Plus)),
        Word::Infix(BinaryOperator::Subtract) => Some(Form::Unary(UnaryOperator::Minus)),
        Word::Step(operator) => Some(Form::Prefix(operator)),
        _ => None,
    }
}

/// The form that `++` or `--` behind a target makes (ECMA-262 11.3).
fn postfix_form(word: Word) -> Option<Form>
    ensures { result ≡ postfix_form word }
{
    match word {
        Word::Step(operator) => Some(Form::Postfix(operator)),
        _ => None,
    }
}

/// The form that an assignment makes (ECMA-262 11.13).
fn assignment_form(word: Word) -> Option<Form>
    ensures { result ≡ assignment_form word }
{
    match word {
        Word::Assign => Some(Form::Assign),
        Word::Compound(operator) => Some(Form::Compound(operator)),
        _ => None,
    }
}
