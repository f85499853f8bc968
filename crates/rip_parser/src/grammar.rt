//! What the rules ask of words, and how tightly open forms hold.

ghost use Rattle.std.specs.Prelude.{◌≡◌};
ghost use Rattle.rip_grammar.specs.Words.{is_assignment, is_close, is_identifier_name, is_key, is_prefix, is_single, is_step};
ghost use Rattle.rip_grammar.specs.Levels.{binds, operator_level};
ghost use Rattle.rip_grammar.specs.Semicolons.{continues, continues_name, continues_nothing, is_inserted};
ghost use Rattle.rip_automaton.specs.Frames.{bars_in, closed, enclosed, floor, may_end, pending_floor, pending_level, single_shape, told};

use crate::levels::{
    AND, ASSIGNMENT, BIT_AND, BIT_OR, BIT_XOR, CALL, COMMA, CONDITIONAL, EQUALITY, NEW, OR, PREFIX,
    PRODUCT, RELATION, SHIFT, SUM,
};
use rip_automaton::{Frame, Pending, Shape, VarRole};
use rip_base::{BinaryOperator, LogicalOperator, UnaryOperator};
use rip_grammar::{Event, Head, Lexeme, Word};

/// Whether the word may stand behind `.` and as a key: a name or a reserved word (ECMA-262 7.6).
pub(crate) fn is_identifier_name(word: Word) -> bool
    ensures { result ≡ is_identifier_name word }
{
    matches!(
        word,
        Word::Name
            | Word::Null
            | Word::True
            | Word::False
            | Word::This
            | Word::Function
            | Word::New
            | Word::Var
            | Word::If
            | Word::Else
            | Word::Do
            | Word::While
            | Word::For
            | Word::Continue
            | Word::Break
            | Word::Return
            | Word::Switch
            | Word::Case
            | Word::Default
            | Word::Throw
            | Word::Try
            | Word::Catch
            | Word::Finally
            | Word::Unused
            | Word::Infix(BinaryOperator::InstanceOf | BinaryOperator::In)
            | Word::Prefix(UnaryOperator::Delete | UnaryOperator::Void | UnaryOperator::TypeOf)
    )
}

/// Whether the word may be the key of an entry (ECMA-262 11.1.5).
pub(crate) fn is_key(word: Word) -> bool
    ensures { result ≡ is_key word }
{
    match word {
        Word::Text | Word::Numeral => true,
        _ => is_identifier_name(word),
    }
}

/// Whether the word is an expression alone (ECMA-262 11.1.1 to 11.1.3).
pub(crate) fn is_single(word: Word) -> bool
    ensures { result ≡ is_single word }
{
    matches!(
        word,
        Word::This | Word::Name | Word::Null | Word::True | Word::False | Word::Numeral | Word::Text
    )
}

/// Whether the word may stand before an operand (ECMA-262 11.4).
pub(crate) fn is_prefix(word: Word) -> bool
    ensures { result ≡ is_prefix word }
{
    matches!(
        word,
        Word::Prefix(_)
            | Word::Step(_)
            | Word::Infix(BinaryOperator::Add | BinaryOperator::Subtract)
    )
}

/// Whether the word is `++` or `--`.
fn is_step(word: Word) -> bool
    ensures { result ≡ is_step word }
{
    matches!(word, Word::Step(_))
}

/// Whether the word assigns (ECMA-262 11.13).
pub(crate) fn is_assignment(word: Word) -> bool
    ensures { result ≡ is_assignment word }
{
    matches!(word, Word::Assign | Word::Compound(_))
}

/// How tightly an operator between two operands holds (ECMA-262 11.5 to 11.10).
fn operator_level(operator: BinaryOperator) -> u32
    ensures { result ≡ operator_level operator }
{
    match operator {
        BinaryOperator::Multiply | BinaryOperator::Divide | BinaryOperator::Remainder => PRODUCT,
        BinaryOperator::Add | BinaryOperator::Subtract => SUM,
        BinaryOperator::ShiftLeft
        | BinaryOperator::ShiftRight
        | BinaryOperator::ShiftRightUnsigned => SHIFT,
        BinaryOperator::Less
        | BinaryOperator::Greater
        | BinaryOperator::LessOrEqual
        | BinaryOperator::GreaterOrEqual
        | BinaryOperator::InstanceOf
        | BinaryOperator::In => RELATION,
        BinaryOperator::Equal
        | BinaryOperator::NotEqual
        | BinaryOperator::StrictEqual
        | BinaryOperator::StrictNotEqual => EQUALITY,
        BinaryOperator::BitAnd => BIT_AND,
        BinaryOperator::BitXor => BIT_XOR,
        BinaryOperator::BitOr => BIT_OR,
    }
}

/// How tightly a word holds between two operands, and 0 where it does not stand there (ECMA-262 11.5 to 11.11, 11.14).
pub(crate) fn binds(word: Word) -> u32
    ensures { result ≡ binds word }
{
    match word {
        Word::Infix(operator) => operator_level(operator),
        Word::Logical(LogicalOperator::And) => AND,
        Word::Logical(LogicalOperator::Or) => OR,
        Word::Comma => COMMA,
        _ => 0,
    }
}

/// Whether the word is `}` or the end.
fn is_close(word: Word) -> bool
    ensures { result ≡ is_close word }
{
    matches!(word, Word::CloseBrace | Word::End)
}

/// Whether the word continues an expression, which may end in a postfix operator (ECMA-262 7.9).
fn continues(postfix: bool, word: Word) -> bool
    ensures { result ≡ continues postfix word }
{
    match word {
        Word::Infix(_)
        | Word::Logical(_)
        | Word::Compound(_)
        | Word::Assign
        | Word::Question
        | Word::Comma
        | Word::Point => true,
        Word::OpenParenthesis | Word::OpenBracket => !postfix,
        _ => false,
    }
}

/// Whether the word continues the name of a declarator (ECMA-262 12.2).
fn continues_name(word: Word) -> bool
    ensures { result ≡ continues_name word }
{
    matches!(word, Word::Comma | Word::Assign)
}

/// Whether `;` is made before the lexeme, behind a statement that nothing continues (ECMA-262 7.9.1).
pub(crate) fn is_inserted(lexeme: Lexeme) -> bool
    ensures { result ≡ is_inserted continues_nothing lexeme }
{
    (is_close(lexeme.word) || lexeme.line_before) && !matches!(lexeme.word, Word::Semicolon)
}

/// Whether `;` is made before the lexeme, behind an expression.
pub(crate) fn is_inserted_behind(postfix: bool, lexeme: Lexeme) -> bool
    ensures { result ≡ is_inserted (continues postfix) lexeme }
{
    is_inserted(lexeme) && !continues(postfix, lexeme.word)
}

/// Whether `;` is made before the lexeme, behind the name of a declarator.
pub(crate) fn is_inserted_behind_name(lexeme: Lexeme) -> bool
    ensures { result ≡ is_inserted continues_name lexeme }
{
    is_inserted(lexeme) && !continues_name(lexeme.word)
}

/// The shape of `this`, a name or a literal.
pub(crate) fn single_shape(word: Word) -> Shape
    ensures { result ≡ single_shape word }
{
    match word {
        Word::Name => Shape::Target,
        _ => Shape::Plain,
    }
}

/// The shape of an operator with this last operand.
pub(crate) fn closed(shape: Shape) -> Shape
    ensures { result ≡ closed shape }
{
    match shape {
        Shape::Postfix => Shape::Postfix,
        Shape::Target | Shape::Plain => Shape::Plain,
    }
}

/// The shape of parentheses around this.
pub(crate) fn enclosed(shape: Shape) -> Shape
    ensures { result ≡ enclosed shape }
{
    match shape {
        Shape::Target => Shape::Target,
        Shape::Plain | Shape::Postfix => Shape::Plain,
    }
}

/// How tightly an open operator holds.
pub(crate) fn pending_level(pending: Pending) -> u32
    ensures { result ≡ pending_level pending }
{
    match pending {
        Pending::Infix(word) => binds(word),
        Pending::Prefix(_, _) => PREFIX,
        Pending::New(_) => NEW,
        Pending::Assignment(_) => ASSIGNMENT,
        Pending::Choice => CONDITIONAL,
    }
}

/// How tightly the last operand of an open operator holds at least.
fn pending_floor(pending: Pending) -> u32
    ensures { result ≡ pending_floor pending }
{
    match pending {
        Pending::Infix(word) => binds(word) + 1,
        Pending::Prefix(_, word) => { if is_step(word) { CALL } else { PREFIX } }
        Pending::New(_) => NEW,
        Pending::Assignment(_) | Pending::Choice => ASSIGNMENT,
    }
}

/// Whether the operator may end with such an operand: `++` and `--` take a target (ECMA-262 11.4.4, 11.4.5).
pub(crate) fn may_end(pending: Pending, shape: Shape) -> bool
    ensures { result ≡ may_end pending shape }
{
    match pending {
        Pending::Prefix(_, word) => !is_step(word) || matches!(shape, Shape::Target),
        _ => true,
    }
}

/// What is told of an operator that ends.
pub(crate) fn told(pending: Pending) -> Event
    ensures { result ≡ told pending }
{
    let (place, head, count) = match pending {
        Pending::Infix(word) => (None, Head::Infix(word), 2),
        Pending::Prefix(place, word) => (Some(place), Head::Prefix(word), 1),
        Pending::New(place) => (Some(place), Head::New, 1),
        Pending::Assignment(word) => (None, Head::Assignment(word), 2),
        Pending::Choice => (None, Head::Conditional, 3),
    };
    Event::Node { place, head, count }
}

/// How tightly an expression in this form holds at least: 1 where it may have a comma, 2 where a comma ends it.
pub(crate) fn floor(frame: Frame) -> u32
    ensures { result ≡ floor frame }
{
    match frame {
        Frame::Operator(pending, _) => pending_floor(pending),
        Frame::Parenthesis(_)
        | Frame::Index
        | Frame::Expression
        | Frame::Return(_)
        | Frame::Throw(_)
        | Frame::Condition(_, _)
        | Frame::ForInit(_)
        | Frame::ForTest(_)
        | Frame::ForUpdate(_)
        | Frame::Case(_) => COMMA,
        _ => ASSIGNMENT,
    }
}

/// Whether no bare `in` is taken in this form (ECMA-262 12.6.3).
pub(crate) fn bars_in(frame: Frame) -> bool
    ensures { result ≡ bars_in frame }
{
    match frame {
        Frame::Operator(_, bars) | Frame::Initialised(_, bars) => bars,
        Frame::Declarators(VarRole::Init, _, _) | Frame::ForInit(_) => true,
        _ => false,
    }
}
