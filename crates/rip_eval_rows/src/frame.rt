use crate::completion::Completion;
use crate::part::Part;
use rip_base::Value;
use rip_heap::Reference;
use rip_values::Builtin;

/// What becomes of the completion of a list of statements.
#[derive(Clone, Copy, Debug, PartialEq, Eq)]
pub enum Ending {
    /// It is that of the block (ECMA-262 12.1).
    Block,
    /// The function returns (13.2.1).
    Call,
    /// The function that `new` calls returns: an object that it returns takes the place of the new one (13.2.2).
    Construct { object: u32 },
    /// The `switch` ends, which `break` leaves (12.11).
    Switch,
    /// The script ends (14).
    Script,
}

/// An open part, and what it waits for.
#[derive(Clone, Copy, Debug, PartialEq, Eq)]
pub struct Frame {
    pub at: Part,
    pub wait: Wait,
}

/// At which of its places a part waits for another.
#[derive(Clone, Copy, Debug, PartialEq, Eq)]
pub enum Wait {
    /// What it does then asks the host for nothing before the next part.
    Own(OwnWait),
    /// What it does then may begin with a call of the host.
    Hosted(HostedWait),
}

/// A place at which a part waits, one variant for each place of each kind of node; a place counts children of its node
/// from 0.
#[derive(Clone, Copy, Debug, PartialEq, Eq)]
pub enum OwnWait {
    /// A statement of a list (ECMA-262 12.1, 13, 14). A script's own list is no node: the room of its part is one more
    /// than that of its statements, as ever, and so passes the limit by one.
    Statement { place: u32, ending: Ending },
    /// The initialiser of a part of `var` (12.2), also in the header of a `for` (12.6.3).
    Initialiser { place: u32 },
    /// The expression of an expression statement (12.4).
    Expression,
    /// The test of `if` (12.5).
    IfTest,
    /// The statement and the test of `do` (12.6.1).
    DoBody,
    DoTest,
    /// The test and the statement of `while` (12.6.2).
    WhileTest,
    WhileBody,
    /// The expression that a `for` begins with, its test, its update and its statement (12.6.3).
    ForStart,
    ForTest,
    ForUpdate,
    ForBody,
    /// The expression of `switch`, a test of a clause, and a statement of a clause (12.11).
    Discriminant,
    CaseTest { clause: u32, value: Value },
    ClauseStatement { clause: u32, place: u32 },
    /// The expression of `throw` (12.13).
    ThrowValue,
    /// The block of `try`, that of `catch`, and that of `finally`, which has the completion before it (12.14).
    TryBlock,
    CatchBlock,
    FinallyBlock { before: Completion },
    /// The expression of `return` (12.9).
    ReturnValue,
    /// The constructor of `new`, and an argument (11.2.2). The values of those before it are beside the frame.
    Constructor,
    NewArgument { place: u32, constructor: Value },
    /// The base of a member `a[b]` (11.2.1).
    IndexBase,
    /// An element of an array literal (11.1.4).
    Element { place: u32, array: u32 },
    /// The value of an entry of an object literal (11.1.5).
    Entry { place: u32, object: u32 },
    /// The operand of an operator that changes no target (11.4).
    Operand,
    /// The operands of a binary operator (11.5 to 11.10).
    Left,
    Right { left: Value },
    /// The left operand of `&&` or `||` (11.11).
    LogicalLeft,
    /// The test of `? :` (11.12).
    ConditionalTest,
    /// The target of `=` (11.13.1).
    AssignTarget,
    /// The left operand of a comma (11.14).
    CommaLeft,
    /// The last part: the open one ends as it does.
    Last,
}

/// A place at which a part waits, and after which it may ask the host at once.
#[derive(Clone, Copy, Debug, PartialEq, Eq)]
pub enum HostedWait {
    /// The callee of a call (ECMA-262 11.2.3).
    Callee,
    /// An argument of a call (11.2.3). The values of those before it are beside the frame.
    Argument {
        place: u32,
        callee: Value,
        this: Value,
    },
    /// A built-in function that was called from outside. Its arguments are beside the frame.
    Called {
        function: Builtin,
        this: Value,
    },
    /// The base of a member `a.b`, and the expression between the brackets of `a[b]` (11.2.1).
    MemberBase,
    Subscript {
        base: Value,
    },
    /// The target of `++` and `--` (11.3, 11.4.4, 11.4.5).
    StepTarget,
    /// The right side of `=` (11.13.1). A target that is a member is beside it.
    AssignValue {
        target: Option<Reference>,
    },
    /// The target and the right side of a compound assignment (11.13.2), which reads its target before.
    CompoundTarget,
    CompoundValue {
        target: Option<Reference>,
        old: Value,
    },
}
