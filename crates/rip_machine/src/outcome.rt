use rip_base::Value;

/// What a run is of.
#[derive(Clone, Copy, Debug)]
pub enum Start<'a> {
    /// This script of the page, which are numbered from 1.
    Script(u32),
    /// The call of this object, as it is called from outside a script (ECMA-262 13.2.1).
    Function {
        function: u32,
        this: Value,
        args: &'a [Value],
    },
}
