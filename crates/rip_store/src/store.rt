ghost use Rattle.std.specs.Prelude.{◌≡◌, [], map, option_map, IfOk, IfErr, OnOk, OnErr, Ok};
ghost use Rattle.rip_data.specs.Datum.{tree_of};
ghost use Rattle.rip_store.specs.Args.{args_of};
ghost use Rattle.rip_store.specs.Apply.{answer, apply, function_named};
ghost use Rattle.rip_store.specs.Held.{functions_of, stored_of};
ghost use Rattle.rip_store.specs.Kept.{AreAccepted, AreAcceptedReplies, IsKept};
ghost use Rattle.rip_store.specs.Outcomes.{outcome_of, IsCause, AreReplies};

use crate::args::bytes_of;
use crate::failure::Failure;
use crate::operations::operate;
use crate::outcome::Done;
use crate::places::Places;
use crate::refusal::Refusal;
use rip_base::{NoMemory, Units};
use rip_data::{Datum, DatumList, copy_datum};
use rip_manifest::{Function, Functions};
use std::alloc::Global;

/// The functions of an application, and the data that they keep.
#[derive(Drop)]
pub struct Store {
    functions: Functions,
    places: Places,
}

/// The reply to a call, three times: for the log, for the answer that is sent, and to be kept.
#[derive(Drop)]
pub struct Replies {
    pub logged: Datum,
    pub sent: Datum,
    pub kept: Datum,
}

impl Store {
    /// A store of these functions that holds nothing.
    pub fn make(alloc: Global, f: &Functions) -> Result<Store, NoMemory>
        ensures functions { IfOk result (λ s. functions_of s ≡ f.now) }
        ensures empty { IfOk result (λ s. stored_of s ≡ []) }
        ensures kept { IfOk result (λ s. IsKept (stored_of s)) }
    {
        Ok(Store {
            functions: copy_functions(alloc, f)?,
            places: Places::new(alloc),
        })
    }

    /// Calls the function of this name with these args. All three replies are made before the store changes. Args that
    /// are a list that `read_datum` accepts leave a store of such data, and are replied such data.
    pub fn apply(
        &mut self,
        alloc: Global,
        name: &Units,
        args: &DatumList,
    ) -> Result<Replies, NoMemory>
        ensures stored { OnOk result
            (stored_of self.new ≡ (apply (functions_of self.old) (stored_of self.old) name.now
            (args_of args.now)).0) }
        ensures replies { IfOk result
            (AreReplies (apply (functions_of self.old) (stored_of self.old) name.now (args_of args.now)).1) }
        ensures functions { functions_of self.new ≡ functions_of self.old }
        ensures no_memory { OnErr result (stored_of self.new ≡ stored_of self.old) }
        ensures kept { IsKept (stored_of self.old) → AreAccepted (args_of args.now)
            → IsKept (stored_of self.new) }
        ensures accepted { IsKept (stored_of self.old) → AreAccepted (args_of args.now)
            → IfOk result AreAcceptedReplies }
    {
        self.call(alloc, name, args)
    }

    // The same, whatever the args are.
    fn call(&mut self, alloc: Global, name: &Units, args: &DatumList) -> Result<Replies, NoMemory>
        ensures stored { OnOk result
            (stored_of self.new ≡ (apply (functions_of self.old) (stored_of self.old) name.now
            (args_of args.now)).0) }
        ensures replies { IfOk result
            (AreReplies (apply (functions_of self.old) (stored_of self.old) name.now (args_of args.now)).1) }
        ensures functions { functions_of self.new ≡ functions_of self.old }
        ensures no_memory { OnErr result (stored_of self.new ≡ stored_of self.old) }
    {
        match self.answer(alloc, name, args.items.as_slice()) {
            Ok(done) => {
                let replies = replies_of(alloc, done.reply)?;
                self.places.change(alloc, done.write)?;
                Ok(replies)
            }
            Err(Failure::Refused(refusal)) => {
                let reply = refusal.reply(alloc)?;
                replies_of(alloc, reply)
            }
            Err(Failure::Memory) => Err(NoMemory),
        }
    }

    // What a call gives: the change is not made yet.
    fn answer(&self, alloc: Global, name: &Units, args: &[Datum]) -> Result<Done, Failure>
        ensures done { IfOk result
            (λ d. answer (functions_of self.now) (stored_of self.now) name.now
            (map tree_of args.now) ≡ Ok (outcome_of (stored_of self.now) d)) }
        ensures refused { IfErr result
            (λ f. IsCause f (answer (functions_of self.now) (stored_of self.now) name.now (map tree_of args.now))) }
    {
        let Some(function) = function_named(&self.functions, name) else {
            return Err(Failure::Refused(Refusal::Unknown));
        };
        let prefix = bytes_of(alloc, &function.prefix)?;
        operate(function.op, alloc, &self.places, prefix.as_slice(), args)
    }
}

// The first function of this name.
fn function_named<'a>(functions: &'a Functions, name: &Units) -> Option<&'a Function>
    ensures { option_map (λ f. f.now) result ≡ function_named functions.now name.now }
{
    for function in functions.as_slice() {
        if function.name == *name {
            return Some(function);
        }
    }
    None
}

fn copy_functions(alloc: Global, functions: &Functions) -> Result<Functions, NoMemory>
    ensures { IfOk result (λ fs. fs ≡ functions.now) }
{
    let mut made = Vec::with_capacity(alloc, functions.len())?;
    for function in functions.as_slice() {
        made.push(copy_function(alloc, function)?)?;
    }
    Ok(Functions::from_vec(made))
}

fn copy_function(alloc: Global, function: &Function) -> Result<Function, NoMemory>
    ensures { IfOk result (λ f. f ≡ function.now) }
{
    Ok(Function {
        name: Units::from_slice(alloc, function.name.as_slice())?,
        op: function.op,
        prefix: Units::from_slice(alloc, function.prefix.as_slice())?,
    })
}

// The reply, three times.
fn replies_of(alloc: Global, reply: Datum) -> Result<Replies, NoMemory>
    ensures { IfOk result (AreReplies (tree_of reply)) }
{
    let sent = copy_datum(alloc, &reply)?;
    let kept = copy_datum(alloc, &reply)?;
    Ok(Replies {
        logged: reply,
        sent,
        kept,
    })
}
