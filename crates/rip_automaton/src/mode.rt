use rip_grammar::Lexeme;

/// What the next lexeme must know of the operand that was read.
#[derive(Clone, Copy, Debug, PartialEq, Eq)]
pub enum Shape {
    /// It may be assigned to.
    Target,
    Plain,
    /// It ends in a postfix `++` or `--`.
    Postfix,
}

/// What the machine wants of the next lexeme.
#[derive(Clone, Copy, Debug, PartialEq, Eq)]
pub enum Mode {
    /// An operand.
    Operand,
    /// An operand was read: what goes on from it, or ends what it stands in.
    After(Shape),
    /// The name behind `.`.
    Member,
    /// The first argument, or `)`.
    Argument,
    /// An element, or `]`.
    Element,
    /// A key, or `}`.
    Key,
    /// The `:` behind a key.
    EntryColon,

    /// Behind `function`, at this place, in an expression: a name, or `(`.
    FunctionName(u32),
    /// Behind `function`, at this place, in a list of statements: a name.
    DeclarationName(u32),
    /// The `(` before parameters.
    OpenParameters,
    /// The first parameter, or `)`.
    FirstParameter,
    /// A parameter.
    Parameter,
    /// Behind a parameter: `,` or `)`.
    AfterParameter,
    /// The `{` of a body.
    OpenBody,

    /// A statement, or the end of a list of them.
    Statement,
    /// A statement has ended: its `else` or `while` or what follows it.
    Ended,
    /// The `;` of a statement that nothing continues.
    Semicolon,
    /// The name of a declarator.
    DeclaratorName,
    /// Behind the name of a declarator.
    AfterName(Lexeme),
    /// Behind `return`: an expression on the same line, or the end of the statement.
    Returning,
    /// Behind `throw`: an expression on the same line.
    Throwing,

    /// The `(` of a header.
    OpenHeader,
    /// The `{` of a `switch`.
    OpenSwitch,
    /// `case`, `default` or the `}` of a `switch`.
    Clause,
    /// The `:` behind `default`.
    DefaultColon,
    /// The `(` behind `for`.
    OpenFor,
    /// The init of a `for`, or `;`.
    ForInit,
    /// The test of a `for`, or `;`.
    ForTest,
    /// The update of a `for`, or `)`.
    ForUpdate,

    /// The `{` of a block in a `try`.
    OpenBlock,
    /// The `(` behind `catch`, which stands at this place.
    OpenCatch(u32),
    /// The name that a `catch` at this place binds.
    CatchName(u32),
    /// The `)` behind that name.
    CloseCatch,

    /// The script has ended: nothing.
    Done,
}
