ghost use Rattle.std.specs.Prelude.{◌≡◌};
ghost use Rattle.rip_grammar.specs.declared.word.Word.TheVariants as W;
ghost use Rattle.rip_lexer.specs.Words.{look_up, reserved_words};
ghost use Rattle.rip_lexer.specs.View.{of_length};

use rip_base::{BinaryOperator, UnaryOperator, is_ascii};
use rip_grammar::Word;

/// The word of a name or a reserved word (ECMA-262 7.6.1).
pub(crate) fn name_word(spelling: &[u16]) -> Word
    ensures { result ≡ look_up W.Name reserved_words spelling.now }
{
    match spelling.len() {
        2 => word_of_two(spelling),
        3 => word_of_three(spelling),
        4 => word_of_four(spelling),
        5 => word_of_five(spelling),
        6 => word_of_six(spelling),
        7 => word_of_seven(spelling),
        8 => word_of_eight(spelling),
        9 => word_of_nine(spelling),
        10 => word_of_ten(spelling),
        _ => Word::Name,
    }
}

/// The word of a name or a reserved word of two units.
#[tactic(auto, unfolding(crate::specs::Words::reserved_words))]
fn word_of_two(spelling: &[u16]) -> Word
    ensures { result ≡ look_up W.Name (of_length 2 reserved_words) spelling.now }
{
    if is_ascii(spelling, b"do") {
        Word::Do
    } else if is_ascii(spelling, b"if") {
        Word::If
    } else if is_ascii(spelling, b"in") {
        Word::Infix(BinaryOperator::In)
    } else {
        Word::Name
    }
}

/// The word of a name or a reserved word of three units.
#[tactic(auto, unfolding(crate::specs::Words::reserved_words))]
fn word_of_three(spelling: &[u16]) -> Word
    ensures { result ≡ look_up W.Name (of_length 3 reserved_words) spelling.now }
{
    if is_ascii(spelling, b"for") {
        Word::For
    } else if is_ascii(spelling, b"new") {
        Word::New
    } else if is_ascii(spelling, b"try") {
        Word::Try
    } else if is_ascii(spelling, b"var") {
        Word::Var
    } else if is_ascii(spelling, b"let") {
        Word::Unused
    } else {
        Word::Name
    }
}

/// The word of a name or a reserved word of four units.
#[tactic(auto, unfolding(crate::specs::Words::reserved_words))]
fn word_of_four(spelling: &[u16]) -> Word
    ensures { result ≡ look_up W.Name (of_length 4 reserved_words) spelling.now }
{
    if is_ascii(spelling, b"case") {
        Word::Case
    } else if is_ascii(spelling, b"else") {
        Word::Else
    } else if is_ascii(spelling, b"null") {
        Word::Null
    } else if is_ascii(spelling, b"this") {
        Word::This
    } else if is_ascii(spelling, b"true") {
        Word::True
    } else if is_ascii(spelling, b"void") {
        Word::Prefix(UnaryOperator::Void)
    } else if is_ascii(spelling, b"enum") || is_ascii(spelling, b"with") {
        Word::Unused
    } else {
        Word::Name
    }
}

/// The word of a name or a reserved word of five units.
#[tactic(auto, unfolding(crate::specs::Words::reserved_words))]
fn word_of_five(spelling: &[u16]) -> Word
    ensures { result ≡ look_up W.Name (of_length 5 reserved_words) spelling.now }
{
    if is_ascii(spelling, b"break") {
        Word::Break
    } else if is_ascii(spelling, b"catch") {
        Word::Catch
    } else if is_ascii(spelling, b"false") {
        Word::False
    } else if is_ascii(spelling, b"throw") {
        Word::Throw
    } else if is_ascii(spelling, b"while") {
        Word::While
    } else if is_ascii(spelling, b"class")
        || is_ascii(spelling, b"const")
        || is_ascii(spelling, b"super")
        || is_ascii(spelling, b"yield")
    {
        Word::Unused
    } else {
        Word::Name
    }
}

/// The word of a name or a reserved word of six units.
#[tactic(auto, unfolding(crate::specs::Words::reserved_words))]
fn word_of_six(spelling: &[u16]) -> Word
    ensures { result ≡ look_up W.Name (of_length 6 reserved_words) spelling.now }
{
    if is_ascii(spelling, b"delete") {
        Word::Prefix(UnaryOperator::Delete)
    } else if is_ascii(spelling, b"return") {
        Word::Return
    } else if is_ascii(spelling, b"switch") {
        Word::Switch
    } else if is_ascii(spelling, b"typeof") {
        Word::Prefix(UnaryOperator::TypeOf)
    } else if is_ascii(spelling, b"export")
        || is_ascii(spelling, b"import")
        || is_ascii(spelling, b"public")
        || is_ascii(spelling, b"static")
    {
        Word::Unused
    } else {
        Word::Name
    }
}

/// The word of a name or a reserved word of seven units.
#[tactic(auto, unfolding(crate::specs::Words::reserved_words))]
fn word_of_seven(spelling: &[u16]) -> Word
    ensures { result ≡ look_up W.Name (of_length 7 reserved_words) spelling.now }
{
    if is_ascii(spelling, b"default") {
        Word::Default
    } else if is_ascii(spelling, b"finally") {
        Word::Finally
    } else if is_ascii(spelling, b"extends")
        || is_ascii(spelling, b"package")
        || is_ascii(spelling, b"private")
    {
        Word::Unused
    } else {
        Word::Name
    }
}

/// The word of a name or a reserved word of eight units.
#[tactic(auto, unfolding(crate::specs::Words::reserved_words))]
fn word_of_eight(spelling: &[u16]) -> Word
    ensures { result ≡ look_up W.Name (of_length 8 reserved_words) spelling.now }
{
    if is_ascii(spelling, b"continue") {
        Word::Continue
    } else if is_ascii(spelling, b"function") {
        Word::Function
    } else if is_ascii(spelling, b"debugger") {
        Word::Unused
    } else {
        Word::Name
    }
}

/// The word of a name or a reserved word of nine units.
#[tactic(auto, unfolding(crate::specs::Words::reserved_words))]
fn word_of_nine(spelling: &[u16]) -> Word
    ensures { result ≡ look_up W.Name (of_length 9 reserved_words) spelling.now }
{
    if is_ascii(spelling, b"interface") || is_ascii(spelling, b"protected") {
        Word::Unused
    } else {
        Word::Name
    }
}

/// The word of a name or a reserved word of ten units.
#[tactic(auto, unfolding(crate::specs::Words::reserved_words))]
fn word_of_ten(spelling: &[u16]) -> Word
    ensures { result ≡ look_up W.Name (of_length 10 reserved_words) spelling.now }
{
    if is_ascii(spelling, b"instanceof") {
        Word::Infix(BinaryOperator::InstanceOf)
    } else if is_ascii(spelling, b"implements") {
        Word::Unused
    } else {
        Word::Name
    }
}
