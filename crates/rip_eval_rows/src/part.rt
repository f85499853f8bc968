ghost use Rattle.std.specs.Prelude.{◌≡◌};
ghost use Rattle.rip_eval_rows.specs.Frame.{inner, inside};

use rip_base::Value;

/// What a node is evaluated for.
#[derive(Clone, Copy, Debug, PartialEq, Eq)]
pub enum Role {
    /// Its value, or what the statement does.
    Value,
    /// The reference that it stands for, which is not read (ECMA-262 8.7): a target, or the operand of `typeof` or
    /// `delete`.
    Target,
    /// Its value, and the base of which it is a member as the value of `this` (11.2.3).
    Callee,
}

/// A part of a run that is entered for one unit of fuel: a node, and where it is evaluated.
#[derive(Clone, Copy, Debug, PartialEq, Eq)]
pub struct Part {
    /// The number of the node in its program.
    pub node: u32,
    /// The scope in which it stands (ECMA-262 10.3).
    pub scope: u32,
    /// The value of `this` there.
    pub this: Value,
    /// The depth that is left for it: at 0 it may not be entered.
    pub room: u32,
    pub role: Role,
}

/// A part inside the open one, but for its depth, of which it has one less.
#[derive(Clone, Copy, Debug, PartialEq, Eq)]
pub struct Inner {
    pub node: u32,
    pub scope: u32,
    pub this: Value,
    pub role: Role,
}

impl Part {
    /// A part inside this one.
    pub fn inside(&self, inner: &Inner) -> Part
        ensures { result ≡ inside self.now inner.now }
    {
        Part {
            node: inner.node,
            scope: inner.scope,
            this: inner.this,
            room: self.room.saturating_sub(1),
            role: inner.role,
        }
    }

    /// This node as a part inside this one, in its scope.
    pub fn inner(&self, node: u32) -> Inner
        ensures { result ≡ inner self.now node }
    {
        Inner {
            node,
            scope: self.scope,
            this: self.this,
            role: Role::Value,
        }
    }
}
