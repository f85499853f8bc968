use rip_values::Builtin;

/// What a value is as a callee.
#[derive(Clone, Copy, Debug, PartialEq, Eq)]
pub enum Invocable {
    /// A function of the script: its node and its scope.
    OfScript(u32, u32),
    OfBuiltin(Builtin),
    NotCallable,
}

/// Who answers the call of a built-in function.
#[derive(Clone, Copy, Debug, PartialEq, Eq)]
pub enum Answerer {
    Evaluator,
    BuiltinTable,
    HostItself,
}

/// What `new` makes of a built-in function.
#[derive(Clone, Copy, Debug, PartialEq, Eq)]
pub enum Making {
    Errors,
    OutsideProfile,
    Nothing,
}
