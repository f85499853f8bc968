ghost use Rattle.std.specs.Prelude.{◌≡◌, ◌+◌, ◌<◌, ◌≤◌, [], max, IfOk, OnErr, OnOk};
ghost use Rattle.rip_heap.specs.Growth.{Grows};
ghost use Rattle.rip_heap.specs.Step.{TakesNoMemory};
ghost use Rattle.rip_eval_rows.specs.Nesting.{IsInside};
ghost use Rattle.rip_eval_rows.specs.Room.{WantsMemory};
ghost use Rattle.rip_machine.specs.Law.{Resumes, Starts, loaded, open_depth, values_of};
ghost use Rattle.rip_machine.specs.Loading.{Loads, TextsStand, cost_of_literals, spans_loaded, values_needed, world_loaded};
ghost use Rattle.rip_machine.specs.Starting.{arguments_in, begun, started_of};
ghost use Rattle.rip_eval_language.specs.Table.{table};

use crate::language::Language;
use crate::loading::{fits, load_texts, values_needed};
use crate::outcome::Start;
use crate::starting::start_run;
use rip_base::{Limit, NoMemory, Refused, Span, Value};
use rip_eval_language::{Source, Worth, worths};
use rip_eval_rows::{Completion, Control, Outcome, Run, Turned};
use rip_heap::{Heap, Host};
use rip_tree::Program;
use std::alloc::Global;
use std::marker::Model;

/// The evaluator of a program: the run that is going on, if there is one, and where the texts of the program stand.
#[derive(Debug, Drop)]
pub struct Machine {
    run: Run,
    literals: Vec<Span>,
    worths: Vec<Worth>,
}

impl Model for Machine {
    ghost use Rattle.rip_eval_rows.specs.Nesting.{IsInside};
    ghost use Rattle.rip_machine.specs.Law.{Standing, standing};
    ghost use Rattle.std.specs.Prelude.{◌+◌};

    ghost Value = { Standing };

    ghost view = { λ m. standing m.run m.literals.items };
}

/// Adds the texts of a program, whose charges together pass no limit. For want of memory all is as before.
fn load_whole(alloc: Global, program: &Program, heap: &mut Heap) -> Result<Vec<Span>, NoMemory>
    requires { heap.old.pool.used + cost_of_literals program.now ≤ heap.old.pool.limit }
    ensures spans { IfOk result (λ spans. spans.items ≡ spans_loaded program.now heap.old) }
    ensures loaded { OnOk result (heap.new ≡ world_loaded program.now heap.old) }
    ensures stand { IfOk result
        (λ spans. TextsStand (record { code = program.now; literals = spans.items }) heap.new) }
    ensures kept { OnErr result (heap.new ≡ heap.old) }
    ensures cells { heap.new.cells ≡ heap.old.cells }
    ensures grows { Grows heap.old heap.new }
{
    let mark = heap.mark();
    match load_texts(alloc, program, heap) {
        Ok(literals) => Ok(literals),
        Err(NoMemory) => {
            heap.cut_back(mark);
            Err(NoMemory)
        },
    }
}

impl Machine {
    /// A machine with no run and no program loaded, for runs that nest so deep. A depth that 32 bits cannot count with one
    /// more is want of memory.
    pub fn make(alloc: Global, depth: u32) -> Result<Machine, NoMemory>
        ensures { IfOk result (λ machine. machine ≡ record {
          control = Control.Give (Completion.Normal Value.Undefined);
          frames = [];
          fuel = 0;
          spent = 0;
          depth = depth;
          literals = [];
          value_room = 1;
        }) }
    {
        Ok(Machine {
            run: Run::make(alloc, depth)?,
            literals: Vec::new(alloc),
            worths: Vec::new(alloc),
        })
    }

    /// Takes the room of the values beside open frames, where there is less, for runs with so much fuel: of scripts, and of
    /// functions that are called from outside with at most one argument. Other runs take it as values come. What 32 bits
    /// cannot count is want of memory.
    pub fn reserve(&mut self, fuel: u64) -> Result<(), NoMemory>
        ensures ok { OnOk result (self.new ≡ record self.old
            { value_room = max self.old.value_room (values_needed fuel) }) }
        ensures err { OnErr result (self.new ≡ self.old) }
    {
        let values = values_needed(fuel)?;
        self.run.reserve(values)
    }

    /// Adds the program's texts to the heap: once, before the first start. Each text literal is put in, and costs its length.
    /// A name is put in once, and costs nothing; one that is a fixed text stands in every pool, and is not put in again.
    /// Literals that would pass the limit of units are refused, and then nothing is done. Where memory is wanting all is as
    /// before.
    pub fn load(&mut self, alloc: Global, program: &Program, heap: &mut Heap) -> Result<(), Refused>
        ensures loads { Loads program.now heap.old self.old result heap.new self.new }
        ensures stand { OnOk result (TextsStand (loaded program.now self.new) heap.new) }
        ensures cells { heap.new.cells ≡ heap.old.cells }
        ensures grows { Grows heap.old heap.new }
    {
        if !fits(program, heap) {
            return Err(Refused::Limit(Limit::Units));
        }
        let worths = worths(alloc, program)?;
        let literals = load_whole(alloc, program, heap)?;
        self.literals = literals;
        self.worths = worths;
        Ok(())
    }

    /// How many nodes are entered and not ended, and how many functions are running. After a fault or a limit they are those
    /// that were open where the run ended.
    pub fn depth(&self) -> u32
        ensures open { result ≡ open_depth self.now }
        ensures within { result ≤ self.now.depth }
    {
        self.run.depth()
    }

    /// The units that were entered in the run.
    pub fn spent(&self) -> u64
        ensures { result ≡ self.now.spent }
    {
        self.run.spent()
    }

    /// The fuel that is left to the run.
    pub fn fuel(&self) -> u64
        ensures { result ≡ self.now.fuel }
    {
        self.run.fuel()
    }

    /// Begins a run with so much fuel. A script binds what it declares in the top scope, scope 0 of the heap; a function
    /// of the script is entered, at its own charge. Of a built-in function the arguments are charged, a cell each; its own
    /// work is done in `resume`, where the host may be asked, and takes no fuel. What is no function throws a TypeError. A
    /// start that would pass a limit does nothing. Memory is wanting only where there are more arguments than values have room,
    /// and then all is as it was.
    pub fn start(
        &mut self,
        alloc: Global,
        program: &Program,
        heap: &mut Heap,
        s: &Start<'_>,
        fuel: u64,
    ) -> Result<(), Refused>
        ensures keeps { (self.new.literals ≡ self.old.literals)
            × (self.new.depth ≡ self.old.depth)
            × (self.new.value_room ≡ self.old.value_room) }
        ensures nested { IsInside (self.new.depth + 1) self.new.control self.new.frames }
        ensures starts { Starts (table (loaded program.now self.old))
            (begun (loaded program.now self.old) self.old.depth s.now heap.old) fuel heap.old
            heap.new self.old self.new result }
        ensures memory { arguments_in (started_of s.now) ≤ self.old.value_room
            → TakesNoMemory result }
        ensures values { OnOk result (values_of self.new
            ≤ arguments_in (started_of s.now) + fuel + 1) }
        ensures grows { Grows heap.old heap.new }
    {
        let p = Source {
            alloc,
            program,
            literals: self.literals.as_slice(),
            worths: self.worths.as_slice(),
        };
        start_run(&mut self.run, &p, heap, s, fuel)
    }

    /// Goes on with the run for at most `n` units. Memory is wanting only where the host may want it, or where the values that
    /// may be beside frames have no room.
    pub fn resume<H: Host>(
        &mut self,
        alloc: Global,
        program: &Program,
        heap: &mut Heap,
        host: &mut H,
        n: u64,
    ) -> Turned
        requires { H.fits host.old heap.old }
        ensures fits { H.fits host.new heap.new }
        ensures keeps { (self.new.literals ≡ self.old.literals)
            × (self.new.depth ≡ self.old.depth) }
        ensures nested { IsInside (self.new.depth + 1) self.new.control self.new.frames }
        ensures counted { self.new.spent + self.new.fuel ≡ self.old.spent + self.old.fuel }
        ensures later { self.old.spent ≤ self.new.spent }
        ensures memory { result ≡ Turned.Done Outcome.Memory → WantsMemory H.may_want_memory
            self.old.value_room (values_of self.old) }
        ensures values { (self.old.value_room ≤ self.new.value_room)
            × (values_of self.new ≤ values_of self.old) }
        ensures grows { Grows heap.old heap.new }
        ensures law { Resumes H.answers (table (loaded program.now self.old)) self.old heap.old
            host.old n self.new heap.new host.new result }
    {
        let source = Source {
            alloc,
            program,
            literals: self.literals.as_slice(),
            worths: self.worths.as_slice(),
        };
        self.run.resume(&Language { source }, heap, host, n)
    }
}
