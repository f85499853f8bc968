ghost use Rattle.std.specs.Prelude.{◌≡◌, [], Some, IfOk, IsTrue, MatchResult, OnErr, Option};
ghost use Rattle.rip_heap.specs.declared.keys.Reference.{Reference as Target};
ghost use Rattle.rip_heap.specs.Growth.{Grows};
ghost use Rattle.rip_heap.specs.World.{World};
ghost use Rattle.rip_ops.specs.Reading.{read};
ghost use Rattle.rip_ops.specs.Writing.{write};
ghost use Rattle.rip_eval_rows.specs.Row.{Ends, Row};
ghost use Rattle.rip_eval_rows.specs.declared.part.Part.{Part};
ghost use Rattle.rip_eval_language.specs.Does.{DoesPurely, DoesAnywhere, DoesWithHost, DoesAnywhereWithHost, GivesValue, GivesWorld};
ghost use Rattle.rip_eval_language.specs.Reading.{literal};
ghost use Rattle.rip_eval_language.specs.Rows.Host.{asks_read};
ghost use Rattle.rip_eval_language.specs.Rows.Members.{deletes, index_row, member_for, member_row, with_base, with_read, with_target, with_writing};
ghost use Rattle.rip_eval_language.specs.Table.{own_rest, hosted_rest};

use rip_base::{Fault, NoMemory, Span, Value};
use rip_eval_language::answers::{
    Answer, abrupt, ask, ask_hosted, ask_read, ask_write, end, give, halt, throw,
};
use rip_eval_language::{Source, value_of};
use rip_eval_rows::{Completion, HostedWait, Next, OwnWait, Part, Role, Stop};
use rip_heap::{Class, Heap, Host, Key, Reference};
use rip_ops::access::{Read, Written, delete, key_of, read, write};
use std::alloc::Global;

// ANSWERS OF MEMBERS

/// The value of a member, for which the host may be asked, or what the row does instead.
#[tactic(auto, using(rip_eval_rows::proofs::Settles::settled))]
pub(crate) fn read_value<H: Host>(
    alloc: Global,
    heap: &mut Heap,
    host: &mut H,
    base: &Value,
    key: Key,
) -> Result<Result<Value, Next>, NoMemory>
    requires { H.fits host.old heap.old }
    ensures read { IfOk result (λ answer. GivesValue H.answers answer heap.new host.new
        (with_read (read heap.old base.now key) heap.old) host.old) }
    ensures memory { OnErr result (IsTrue H.may_want_memory) }
    ensures fits { H.fits host.new heap.new }
    ensures grows { Grows heap.old heap.new }
{
    match read(heap, *base, key) {
        Read::Value(v) => Ok(Ok(v)),
        Read::TypeFault => Ok(Err(throw(alloc, heap, Class::ThrownTypeError))),
        Read::Fault(fault) => Ok(Err(Next::Halt(Stop::Fault(fault)))),
        Read::Host { object, name } => ask_read(alloc, heap, host, object, name),
    }
}

/// Writes a member, for which the host may be asked; then the row goes on, or does this instead.
#[tactic(auto, using(rip_eval_rows::proofs::Settles::settled))]
pub(crate) fn write_value<H: Host>(
    alloc: Global,
    heap: &mut Heap,
    host: &mut H,
    base: &Value,
    key: Key,
    v: &Value,
) -> Result<Result<(), Next>, NoMemory>
    requires { H.fits host.old heap.old }
    ensures written { IfOk result (λ answer. GivesWorld H.answers answer heap.new host.new
        (with_writing (write heap.old base.now key v.now) v.now heap.old) host.old) }
    ensures memory { OnErr result (IsTrue H.may_want_memory) }
    ensures fits { H.fits host.new heap.new }
    ensures grows { Grows heap.old heap.new }
{
    match write(alloc, heap, *base, key, *v) {
        Ok(written) => match written {
            Written::Done => Ok(Ok(())),
            Written::Host { object, name } => ask_write(alloc, heap, host, object, name, v),
        },
        Err(cause) => Ok(Err(abrupt(alloc, heap, cause))),
    }
}

/// What a member is evaluated for: its value, what it means as a target, or its value and the base.
fn member_for<H: Host>(
    alloc: Global,
    heap: &mut Heap,
    host: &mut H,
    role: Role,
    base: &Value,
    key: Key,
) -> Answer
    requires { H.fits host.old heap.old }
    ensures row { DoesAnywhereWithHost H.answers result heap.new host.new
        (member_for role base.now key heap.old) host.old }
    ensures memory { OnErr result (IsTrue H.may_want_memory) }
    ensures fits { H.fits host.new heap.new }
    ensures grows { Grows heap.old heap.new }
{
    match role {
        Role::Target => {
            let target = Reference { base: *base, key };
            Ok(end(&Completion::Referred(target)))
        },
        Role::Value => member_value(alloc, heap, host, base, key),
        Role::Callee => method(alloc, heap, host, base, key),
    }
}

/// The value of a member.
#[tactic(auto, using(rip_eval_rows::proofs::Settles::settled))]
fn member_value<H: Host>(
    alloc: Global,
    heap: &mut Heap,
    host: &mut H,
    base: &Value,
    key: Key,
) -> Answer
    requires { H.fits host.old heap.old }
    ensures row { DoesAnywhereWithHost H.answers result heap.new host.new
        (member_for Role.Value base.now key heap.old) host.old }
    ensures memory { OnErr result (IsTrue H.may_want_memory) }
    ensures fits { H.fits host.new heap.new }
    ensures grows { Grows heap.old heap.new }
{
    match read(heap, *base, key) {
        Read::Value(v) => Ok(give(v)),
        Read::TypeFault => Ok(throw(alloc, heap, Class::ThrownTypeError)),
        Read::Fault(fault) => Ok(halt(Stop::Fault(fault))),
        Read::Host { object, name } => host_value(alloc, heap, host, object, name),
    }
}

/// The value of a member of the host.
fn host_value<H: Host>(
    alloc: Global,
    heap: &mut Heap,
    host: &mut H,
    object: u32,
    name: Span,
) -> Answer
    requires { H.fits host.old heap.old }
    ensures row { DoesAnywhereWithHost H.answers result heap.new host.new
        (asks_read object name heap.old (λ v x. Ends (Completion.Normal v) x)) host.old }
    ensures memory { OnErr result (IsTrue H.may_want_memory) }
    ensures fits { H.fits host.new heap.new }
    ensures grows { Grows heap.old heap.new }
{
    match ask_read(alloc, heap, host, object, name)? {
        Ok(v) => Ok(give(v)),
        Err(next) => Ok(next),
    }
}

/// The value of a member and the base, for a call.
#[tactic(auto, using(rip_eval_rows::proofs::Settles::settled))]
fn method<H: Host>(alloc: Global, heap: &mut Heap, host: &mut H, base: &Value, key: Key) -> Answer
    requires { H.fits host.old heap.old }
    ensures row { DoesAnywhereWithHost H.answers result heap.new host.new
        (member_for Role.Callee base.now key heap.old) host.old }
    ensures memory { OnErr result (IsTrue H.may_want_memory) }
    ensures fits { H.fits host.new heap.new }
    ensures grows { Grows heap.old heap.new }
{
    match read(heap, *base, key) {
        Read::Value(v) => Ok(method_on(base, v)),
        Read::TypeFault => Ok(throw(alloc, heap, Class::ThrownTypeError)),
        Read::Fault(fault) => Ok(halt(Stop::Fault(fault))),
        Read::Host { object, name } => host_method(alloc, heap, host, base, object, name),
    }
}

/// The same of a member of the host.
fn host_method<H: Host>(
    alloc: Global,
    heap: &mut Heap,
    host: &mut H,
    base: &Value,
    object: u32,
    name: Span,
) -> Answer
    requires { H.fits host.old heap.old }
    ensures row { DoesAnywhereWithHost H.answers result heap.new host.new
        (asks_read object name heap.old (λ f x. Ends (Completion.Method f base.now) x)) host.old }
    ensures memory { OnErr result (IsTrue H.may_want_memory) }
    ensures fits { H.fits host.new heap.new }
    ensures grows { Grows heap.old heap.new }
{
    match ask_read(alloc, heap, host, object, name)? {
        Ok(function) => Ok(method_on(base, function)),
        Err(next) => Ok(next),
    }
}

/// The row ends with a function and the base of which it is a member.
fn method_on(base: &Value, function: Value) -> Next
    ensures { result ≡ Next.End (Completion.Method function base.now) }
{
    Next::End(Completion::Method {
        function,
        this: *base,
    })
}

// MEMBERS

/// A member by a name begins with its base (11.2.1).
pub fn begin_member(p: &Source, at: &Part) -> Next
    ensures row { DoesPurely p.now at.now result (member_row p.now at.now) }
{
    ask_hosted(p.part_at(at, 0), HostedWait::MemberBase)
}

/// Behind the base of a member by a name comes what its role asks for.
#[tactic(auto, using(rip_eval_rows::proofs::Settles::settled))]
pub fn after_member_base<H: Host>(
    p: &Source,
    heap: &mut Heap,
    host: &mut H,
    at: &Part,
    c: &Completion,
) -> Answer
    requires { H.fits host.old heap.old }
    ensures row { DoesWithHost H.answers p.now at.now result heap.new host.new
        (hosted_rest p.now at.now HostedWait.MemberBase [] c.now heap.old) host.old }
    ensures memory { OnErr result (IsTrue H.may_want_memory) }
    ensures fits { H.fits host.new heap.new }
    ensures grows { Grows heap.old heap.new }
{
    match value_of(c) {
        Some(base) => named_member(p, heap, host, at, &base),
        None => Ok(end(c)),
    }
}

/// The member of a base that a name names.
#[tactic(auto, using(rip_eval_rows::proofs::Settles::settled))]
fn named_member<H: Host>(
    p: &Source,
    heap: &mut Heap,
    host: &mut H,
    at: &Part,
    base: &Value,
) -> Answer
    requires { H.fits host.old heap.old }
    ensures row { DoesWithHost H.answers p.now at.now result heap.new host.new
        (with_base base.now heap.old (member_for at.now.role base.now
        (Key.Name (literal p.now at.now.node)) heap.old)) host.old }
    ensures memory { OnErr result (IsTrue H.may_want_memory) }
    ensures fits { H.fits host.new heap.new }
    ensures grows { Grows heap.old heap.new }
{
    match base {
        Value::Undefined | Value::Null => Ok(throw(p.alloc(), heap, Class::ThrownTypeError)),
        _ => {
            let key = Key::Name(p.literal(at.node));
            member_for(p.alloc(), heap, host, at.role, base, key)
        },
    }
}

/// A member by an expression begins with its base (11.2.1).
pub fn begin_index(p: &Source, at: &Part) -> Next
    ensures row { DoesPurely p.now at.now result (index_row p.now at.now) }
{
    ask(p.part_at(at, 0), OwnWait::IndexBase)
}

/// Behind the base of a member by an expression comes its subscript.
pub fn after_index_base(p: &Source, at: &Part, c: &Completion) -> Next
    ensures row { DoesPurely p.now at.now result
        (own_rest p.now at.now OwnWait.IndexBase [] c.now) }
{
    match value_of(c) {
        Some(base) => ask_hosted(p.part_at(at, 1), HostedWait::Subscript { base }),
        None => end(c),
    }
}

/// Behind a subscript comes what the role of the member asks for.
#[tactic(auto, using(rip_eval_rows::proofs::Settles::settled))]
pub fn after_subscript<H: Host>(
    p: &Source,
    heap: &mut Heap,
    host: &mut H,
    at: &Part,
    base: &Value,
    c: &Completion,
) -> Answer
    requires { H.fits host.old heap.old }
    ensures row { DoesWithHost H.answers p.now at.now result heap.new host.new
        (hosted_rest p.now at.now (HostedWait.Subscript base.now) [] c.now heap.old) host.old }
    ensures memory { OnErr result (IsTrue H.may_want_memory) }
    ensures fits { H.fits host.new heap.new }
    ensures grows { Grows heap.old heap.new }
{
    match value_of(c) {
        Some(subscript) => match key_of(p.alloc(), heap, *base, subscript) {
            Ok(key) => member_for(p.alloc(), heap, host, at.role, base, key),
            Err(cause) => Ok(abrupt(p.alloc(), heap, cause)),
        },
        None => Ok(end(c)),
    }
}

// TARGETS

/// What a target is: a member, or none where it is a name or no target at all; or what a row ends with.
pub(crate) fn target_of(c: &Completion) -> Result<Option<Reference>, Completion>
    ensures { MatchResult result (λ target. (w : World) (go : Option Target → Row)
        → with_target c.now w go ≡ go target) (λ end. (w : World) (go : Option Target → Row)
        → with_target c.now w go ≡ Ends end w) }
{
    match c {
        Completion::Normal(_) => Ok(None),
        Completion::Referred(r) => Ok(Some(*r)),
        _ => Err(*c),
    }
}

/// Takes the member away that a target is; what is no member is left.
pub(crate) fn deletes(alloc: Global, heap: &mut Heap, target: &Option<Reference>) -> Next
    ensures row { DoesAnywhere result heap.new (deletes target.now heap.old) }
    ensures grows { Grows heap.old heap.new }
{
    match target {
        None => give(Value::Bool(true)),
        Some(member) => delete_member(alloc, heap, member),
    }
}

fn delete_member(alloc: Global, heap: &mut Heap, member: &Reference) -> Next
    ensures row { DoesAnywhere result heap.new (deletes (Some member.now) heap.old) }
    ensures grows { Grows heap.old heap.new }
{
    match delete(heap, member.base, member.key) {
        Ok(()) => give(Value::Bool(true)),
        Err(cause) => abrupt(alloc, heap, cause),
    }
}
