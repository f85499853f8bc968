//! Runs in slices of any length. The program `ripley` cuts runs at turns alone, and `script` at none.
use rip_early::check;
use rip_heap::{EmptyHost, Heap, HeapLimits};
use rip_lexer::tokens;
use rip_machine::{Machine, Start, Turned};
use rip_parser::parse;
use rip_tree::{Program, Trees};
use std::alloc::Global;
use std::test::Fail;

/// The fuel of a run.
const FUEL: u64 = 500;

/// The limits of its heap.
const HEAP: HeapLimits = HeapLimits {
    cells: 60,
    units: 70,
    text: 65_535,
};

/// How deep its nodes and functions nest.
const DEPTH: u32 = 50;

/// Scripts that come to their end, that throw, and that are stopped.
static SCRIPTS: [&str; 6] = [
    r#""use strict";function f(){for(var i=0;i<3;i++){try{continue}finally{if(i===1)break}}return i}var r=f()"#,
    r#""use strict";var r="";try{try{throw 1}catch(e){r+=e;throw 2}finally{r+="f"}}catch(e){r+=e}"#,
    r#""use strict";throw {a:1}"#,
    r#""use strict";var a=[1];a[2]=0"#,
    r#""use strict";var r=0;try{while(true){}}finally{r=1}"#,
    r#""use strict";function g(){return g();}g();"#,
];

/// The program of a script.
fn program_of(alloc: Global, text: &str) -> Result<Program, Fail> {
    let mut units = Vec::new(alloc);
    for byte in text.as_bytes() {
        units.push(u16::from(*byte))?;
    }
    if units.len() > 10_000 {
        return Err("too long".into());
    }
    let found = match tokens(alloc, &units) {
        Ok(found) => found,
        Err(_) => return Err("no tokens".into()),
    };
    let tree = match parse(alloc, &units, found.as_slice()) {
        Ok(tree) => tree,
        Err(_) => return Err("no tree".into()),
    };
    match check(alloc, &Trees::from_vec(vec![in alloc; tree]?)) {
        Ok(program) => Ok(program),
        Err(_) => Err("no program".into()),
    }
}

/// The heap and the machine at the start of a run of the program within these limits.
fn begun(alloc: Global, program: &Program) -> Result<(Heap, Machine), Fail> {
    let mut heap = Heap::make(alloc, HEAP)?;
    let mut machine = Machine::make(alloc, DEPTH)?;
    heap.new_scope(alloc, None, program.top_names())?;
    machine.load(alloc, program, &mut heap)?;
    machine.start(alloc, program, &mut heap, &Start::Script(1), FUEL)?;
    Ok((heap, machine))
}

/// What a run of the program comes to in slices of so many units: how it ends, what it takes, and what is open then.
fn ended(alloc: Global, program: &Program, slice: u64) -> Result<String, Fail> {
    let (mut heap, mut machine) = begun(alloc, program)?;
    for _ in 0..FUEL {
        let turned = machine.resume(alloc, program, &mut heap, &mut EmptyHost, slice);
        if let Turned::Done(outcome) = turned {
            let (spent, open) = (machine.spent(), machine.depth());
            let (cells, units) = (heap.used_cells(), heap.pool().used());
            return Ok(format!(in alloc; "{outcome:?} {spent} {open} {cells} {units}")?);
        }
    }
    Err("no end".into())
}

#[test]
fn runs_are_the_same_in_slices(rt: HostRuntime) -> Result<(), Fail> {
    let alloc = rt.alloc();
    for &text in &SCRIPTS {
        let program = program_of(alloc, text)?;
        let whole = ended(alloc, &program, FUEL)?;
        for slice in [1, 7] {
            let found = ended(alloc, &program, slice)?;
            assert_eq!(rt; found.as_str(), whole.as_str(), "{text} {slice}");
        }
    }
    Ok(())
}
