ghost use Rattle.std.specs.Prelude.{◌≡◌};
ghost use Rattle.rip_eval_language.specs.Rows.Statements.{is_declaration, is_for};

use rip_tree::Form;

/// Whether a node declares a function (ECMA-262 13).
pub fn is_declaration(form: Form) -> bool
    ensures { result ≡ is_declaration form }
{
    matches!(form, Form::FunctionDeclaration(_))
}

/// Whether a node is a `for` (ECMA-262 12.6.3).
pub fn is_for(form: Form) -> bool
    ensures { result ≡ is_for form }
{
    matches!(form, Form::For)
}

/// A statement of a list, and its place.
#[derive(Drop)]
pub struct Listed {
    pub place: u32,
    pub node: u32,
}
