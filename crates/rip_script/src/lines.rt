ghost use Rattle.std.specs.Prelude.{◌≡◌, ◌+◌, ◌++◌, OnOk, replicate};
ghost use Rattle.rip_script.specs.Forms.{form_word};
ghost use Rattle.rip_script.specs.Lines.{line_text};
ghost use Rattle.rip_script.specs.Texts.{kind_word, line_word, node_line, token_line};

use rip_base::{NoMemory, Writer};
use rip_lexer::{Token, TokenKind};
use rip_tree::{Form, Node};

/// Writes the line of a token.
pub fn write_token(out: &mut Writer, token: &Token) -> Result<(), NoMemory>
    ensures { OnOk result (out.new ≡ out.old ++ line_text (token_line token.now)) }
{
    out.text(kind_word(token.kind))?;
    out.text(b" ")?;
    out.number(u64::from(token.start))?;
    out.text(b" ")?;
    out.number(u64::from(token.count))?;
    out.text(b" ")?;
    out.text(line_word(token.line_before))?;
    out.text(b"\n")?;
    Ok(())
}

/// Writes the line of a node at this level.
pub fn write_node(out: &mut Writer, level: u32, node: &Node) -> Result<(), NoMemory>
    ensures { OnOk result (out.new ≡ out.old ++ line_text (node_line level node.now)) }
{
    write_indent(out, level)?;
    out.text(form_word(node.form))?;
    out.text(b" @")?;
    out.number(u64::from(node.place))?;
    out.text(b"\n")
}

/// Writes two spaces for each level.
fn write_indent(out: &mut Writer, level: u32) -> Result<(), NoMemory>
    ensures { OnOk result (out.new ≡ out.old ++ replicate (level + level) 32) }
{
    'levels: for _ in 0..level {
        out.text(b"  ")?;
    }
    Ok(())
}

/// A kind of token by its name.
fn kind_word(kind: TokenKind) -> &'static [u8]
    ensures { result.now ≡ kind_word kind }
{
    match kind {
        TokenKind::Name => b"Name",
        TokenKind::Reserved => b"Reserved",
        TokenKind::Numeral => b"Numeral",
        TokenKind::Text => b"Text",
        TokenKind::Punctuator => b"Punctuator",
    }
}

/// Whether a line end stands before a token.
fn line_word(line_before: bool) -> &'static [u8]
    ensures { result.now ≡ line_word line_before }
{
    if line_before { b"line" } else { b"-" }
}

/// A form of a node by its name.
fn form_word(form: Form) -> &'static [u8]
    ensures { result.now ≡ form_word form }
{
    match form {
        Form::Script => b"Script",
        Form::FunctionDeclaration(_) => b"FunctionDeclaration",
        Form::Block => b"Block",
        Form::Var => b"Var",
        Form::Empty => b"Empty",
        Form::Expression => b"Expression",
        Form::If => b"If",
        Form::DoWhile => b"DoWhile",
        Form::While => b"While",
        Form::For => b"For",
        Form::Continue => b"Continue",
        Form::Break => b"Break",
        Form::Return => b"Return",
        Form::Switch => b"Switch",
        Form::Throw => b"Throw",
        Form::Try => b"Try",
        Form::This => b"This",
        Form::Name(_) => b"Name",
        Form::Null => b"Null",
        Form::Boolean(_) => b"Boolean",
        Form::Number(_) => b"Number",
        Form::Text(_) => b"Text",
        Form::Array => b"Array",
        Form::Object => b"Object",
        Form::Function(_) => b"Function",
        Form::Member(_) => b"Member",
        Form::Index => b"Index",
        Form::New => b"New",
        Form::Call => b"Call",
        Form::Postfix(_) => b"Postfix",
        Form::Prefix(_) => b"Prefix",
        Form::Unary(_) => b"Unary",
        Form::Binary(_) => b"Binary",
        Form::Logical(_) => b"Logical",
        Form::Conditional => b"Conditional",
        Form::Assign => b"Assign",
        Form::Compound(_) => b"Compound",
        Form::Comma => b"Comma",
        Form::Declarator(_) => b"Declarator",
        Form::Bindings => b"Bindings",
        Form::Entry(_) => b"Entry",
        Form::Parameter(_) => b"Parameter",
        Form::Case => b"Case",
        Form::Default => b"Default",
        Form::Catch(_) => b"Catch",
    }
}
