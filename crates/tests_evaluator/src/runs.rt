use rip_base::Value;
use rip_eval_rows::*;
use std::test::Fail;

fn part(node: u32) -> Part {
    Part {
        node,
        scope: 0,
        this: Value::Undefined,
        room: 3,
        role: Role::Value,
    }
}

fn outer() -> Frame {
    Frame {
        at: part(1),
        wait: Wait::Own(OwnWait::Left),
    }
}

fn inner() -> Frame {
    Frame {
        at: part(2),
        wait: Wait::Hosted(HostedWait::Callee),
    }
}

#[test]
fn values_go_with_their_frame(rt: HostRuntime) -> Result<(), Fail> {
    let alloc = rt.alloc();
    let mut stack = Stack::make(alloc, 4)?;
    stack.reserve(2)?;
    assert_eq!(rt; stack.push(outer()), Ok(()));
    assert!(rt; stack.keep(&outer(), &Value::Null).is_ok());
    assert_eq!(rt; stack.push(inner()), Ok(()));
    assert!(rt; stack.keep(&inner(), &Value::NaN).is_ok());
    assert!(rt; stack.keep(&inner(), &Value::NaN).is_err());
    assert_eq!(rt; stack.values(), [Value::NaN].as_slice());
    stack.replace(&inner());
    assert!(rt; stack.values().is_empty());
    stack.pop();
    assert_eq!(rt; stack.values(), [Value::Null].as_slice());
    stack.clear();
    assert_eq!(rt; stack.depth(), 0);
    Ok(())
}
