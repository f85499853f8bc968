ghost use Rattle.std.specs.Prelude.{◌≡◌, ℕ, ◌+◌, ◌-◌, ◌*◌, ◌<◌, ◌≤◌, ◌∷◌, ◌++◌, [], ⊤, false, length, IfOk, IsTrue, OnErr, OnOk};
ghost use Rattle.std.specs.Bool.{MatchBool};
ghost use Rattle.rip_heap.specs.Growth.{Grows};
ghost use Rattle.rip_eval_rows.specs.Frame.{waiting};
ghost use Rattle.rip_eval_rows.specs.Law.{SameRest, Stands, weight};
ghost use Rattle.rip_eval_rows.specs.Nesting.{IsInside};
ghost use Rattle.rip_eval_rows.specs.Rest.{as_row, called_control, called_frame, control_of, frame_of, next_run};
ghost use Rattle.rip_eval_rows.specs.Room.{WantsMemory, most_values};
ghost use Rattle.rip_eval_rows.specs.Round.{rest_at};
ghost use Rattle.rip_eval_rows.specs.Run.{run};
ghost use Rattle.rip_eval_rows.specs.Settle.{settle};
ghost use Rattle.rip_eval_rows.specs.Stack.{count_of_values, framed, last_values, without_last};

use crate::completion::{Completion, Stop};
use crate::frame::{Frame, Wait};
use crate::next::{Control, Next};
use crate::part::Part;
use crate::round::{Round, RoundWait};
use crate::rows::Rows;
use crate::stack::Stack;
use rip_base::{Limit, NoMemory, Value};
use rip_heap::{Heap, Host};

/// Puts a frame behind the others, which has room.
pub(crate) fn pushed(stack: &mut Stack, frame: &Frame)
    requires { length stack.old.frames < stack.old.most }
    ensures { stack.new ≡ record stack.old
        { frames = stack.old.frames ++ framed frame.now [] ∷ [] } }
{
    match stack.push(*frame) {
        Ok(()) => {},
        Err(_) => unreachable!(),
    }
}

/// An open part that waits so.
fn waiting(at: &Part, wait: &Wait) -> Frame
    ensures { result ≡ waiting at.now wait.now }
{
    Frame {
        at: *at,
        wait: *wait,
    }
}

/// What the run goes on with where a part was called inside the open one.
fn called_control(at: &Part, node: u32) -> Control
    ensures { result ≡ called_control at.now node }
{
    if at.room == 0 {
        let stop = Stop::Limit(Limit::Depth);
        return Control::Halted {
            stop,
            room: at.room,
        };
    }
    Control::Enter(at.inside(&at.inner(node)))
}

/// Opens the frame of a part that was called, where there is depth for it. The frame has room.
fn open_called(stack: &mut Stack, at: &Part, wait: &Wait)
    requires { length stack.old.frames < stack.old.most }
    ensures { stack.new ≡ record stack.old {
      frames = stack.old.frames
          ++ called_frame at.now wait.now;
    } }
{
    if at.room > 0 {
        pushed(stack, &waiting(at, wait));
    }
}

/// Puts a frame in place of the innermost one, and a value behind the values beside it, which has room.
fn kept(stack: &mut Stack, frame: &Frame, value: &Value)
    requires some { 0 < length stack.old.frames }
    requires room { count_of_values stack.old.frames < stack.old.room }
    ensures { stack.new ≡ record stack.old {
      frames = without_last stack.old.frames ++ framed frame.now
          (last_values stack.old.frames ++ value.now ∷ []) ∷ [];
    } }
{
    match stack.keep(frame, value) {
        Ok(()) => {},
        Err(NoMemory) => unreachable!(),
    }
}

/// Opens the frame of what an open part does next, and goes on with that. The frame has room, and so has a value.
pub(crate) fn open(stack: &mut Stack, at: &Part, next: &Next, control: &mut Control)
    requires frames { length stack.old.frames < stack.old.most }
    requires values { count_of_values stack.old.frames < stack.old.room }
    ensures control { control.new ≡ control_of at.now next.now }
    ensures frames { stack.new ≡ record stack.old
        { frames = stack.old.frames ++ frame_of at.now next.now [] } }
{
    match next {
        Next::End(c) => *control = Control::Give(*c),
        Next::Halt(stop) => {
            let room = at.room.saturating_sub(1);
            *control = Control::Halted { stop: *stop, room };
        },
        Next::Ask(part, wait) | Next::Turn(part, wait) => {
            pushed(stack, &waiting(at, wait));
            *control = Control::Enter(at.inside(part));
        },
        Next::Keep(part, wait, v) => {
            open_beside(stack, &waiting(at, wait), v);
            *control = Control::Enter(at.inside(part));
        },
        Next::Call(part, node, wait) => {
            let inside = at.inside(part);
            open_called(stack, &inside, wait);
            *control = called_control(&inside, *node);
        },
    }
}

/// Puts a frame behind the others, with a value beside it. Both have room.
fn open_beside(stack: &mut Stack, frame: &Frame, value: &Value)
    requires frames { length stack.old.frames < stack.old.most }
    requires values { count_of_values stack.old.frames < stack.old.room }
    ensures { stack.new ≡ record stack.old
        { frames = stack.old.frames ++ framed frame.now (value.now ∷ []) ∷ [] } }
{
    pushed(stack, frame);
    kept(stack, frame, value);
}

/// The same for what is done at the innermost frame, in whose place the new one is put.
fn reopen(stack: &mut Stack, at: &Part, next: &Next, control: &mut Control)
    requires some { 0 < length stack.old.frames }
    requires values { count_of_values stack.old.frames < stack.old.room }
    ensures control { control.new ≡ control_of at.now next.now }
    ensures frames { stack.new ≡ record stack.old {
      frames = without_last stack.old.frames ++ frame_of at.now next.now
          (last_values stack.old.frames);
    } }
{
    match next {
        Next::End(c) => {
            stack.close();
            *control = Control::Give(*c);
        },
        Next::Halt(stop) => {
            stack.close();
            let room = at.room.saturating_sub(1);
            *control = Control::Halted { stop: *stop, room };
        },
        Next::Ask(part, wait) | Next::Turn(part, wait) => {
            stack.replace(&waiting(at, wait));
            *control = Control::Enter(at.inside(part));
        },
        Next::Keep(part, wait, v) => {
            kept(stack, &waiting(at, wait), v);
            *control = Control::Enter(at.inside(part));
        },
        Next::Call(part, node, wait) => {
            let inside = at.inside(part);
            reopen_called(stack, &inside, wait);
            *control = called_control(&inside, *node);
        },
    }
}

/// The frame of a part that was called stands in place of the innermost one, where there is depth for it.
fn reopen_called(stack: &mut Stack, at: &Part, wait: &Wait)
    requires { 0 < length stack.old.frames }
    ensures { stack.new ≡ record stack.old {
      frames = without_last stack.old.frames
          ++ called_frame at.now wait.now;
    } }
{
    if at.room > 0 {
        stack.replace(&waiting(at, wait));
    } else {
        stack.close();
    }
}

/// Puts values beside the only frame, which has none yet. They have room.
pub(crate) fn keep_values(stack: &mut Stack, frame: &Frame, values: &[Value])
    requires only { stack.old.frames ≡ framed frame.now [] ∷ [] }
    requires room { length values.now ≤ stack.old.room }
    ensures { stack.new ≡ record stack.old { frames = framed frame.now values.now ∷ [] } }
{
    for v in values {
        match stack.keep(frame, v) {
            Ok(()) => {},
            Err(NoMemory) => unreachable!(),
        }
    }
}

/// What a list of statements or a loop does behind one of its parts, with no values beside its frame: its parts are done as
/// long as they can be done at once. Nobody has to try again what it waits for then.
fn go_round<R: Rows, H: Host>(
    rows: &R,
    heap: &mut Heap,
    at: &Part,
    wait: &RoundWait,
    c: &Completion,
    left: &mut u64,
) -> Next
    ensures run { (k : ℕ) (host : H) → next_run H.answers (R.table rows.now) at.now result
        (left.new + k) heap.new host ≡ run H.answers (R.table rows.now) (at.now.room - 1)
        (rest_at (R.table rows.now) at.now wait.now c.now heap.old) (left.old + k) host }
    ensures within { left.new ≤ left.old }
    ensures grows { Grows heap.old heap.new }
{
    let mut place = *wait;
    let mut completion = *c;
    loop {
        match rows.round(heap, at, &place, &completion) {
            Round::End(last) => return Next::End(last),
            Round::Part { node, wait } => {
                match rows.at_once(heap, &at.inside(&at.inner(node)), *left) {
                    Some(done) => {
                        *left -= done.units;
                        place = wait;
                        completion = done.completion;
                    },
                    None => return wait.asked(at.inner(node)),
                }
            },
        }
    }
}

/// The part that an open part waits for, with no values beside its frame, is done at once, and next is what the open part does
/// with its completion; and whether what it waits for then may be tried.
fn take_part<R: Rows, H: Host>(
    rows: &R,
    heap: &mut Heap,
    host: &mut H,
    at: &Part,
    next: &mut Next,
    left: &mut u64,
) -> Result<bool, NoMemory>
    requires fits { H.fits host.old heap.old }
    ensures run { OnOk result ((k : ℕ) → next_run H.answers (R.table rows.now) at.now next.new
        (left.new + k) heap.new host.new ≡ next_run H.answers (R.table rows.now) at.now next.old
        (left.old + k) heap.old host.old) }
    ensures memory { OnErr result (IsTrue H.may_want_memory) }
    ensures less { IfOk result (λ taken. MatchBool taken (left.new < left.old) ⊤) }
    ensures within { left.new ≤ left.old }
    ensures fits { H.fits host.new heap.new }
    ensures grows { Grows heap.old heap.new }
{
    match &*next {
        Next::Ask(inner, wait) | Next::Turn(inner, wait) => {
            let wait = *wait;
            match rows.at_once(heap, &at.inside(inner), *left) {
                Some(done) => {
                    *left -= done.units;
                    match RoundWait::of(&wait) {
                        Some(place) => {
                            *next = go_round::<R, H>(
                                rows,
                                heap,
                                at,
                                &place,
                                &done.completion,
                                left,
                            );
                            Ok(false)
                        },
                        None => {
                            rows.finish(heap, host, at, &wait, &[], &[], &done.completion, next)?;
                            Ok(true)
                        },
                    }
                },
                None => Ok(false),
            }
        },
        _ => Ok(false),
    }
}

/// The parts for which an open part waits, with no values beside its frame, are done as long as they can be done at once.
fn take_parts<R: Rows, H: Host>(
    rows: &R,
    heap: &mut Heap,
    host: &mut H,
    at: &Part,
    next: &mut Next,
    left: &mut u64,
) -> Result<(), NoMemory>
    requires fits { H.fits host.old heap.old }
    ensures run { OnOk result ((k : ℕ) → next_run H.answers (R.table rows.now) at.now next.new
        (left.new + k) heap.new host.new ≡ next_run H.answers (R.table rows.now) at.now next.old
        (left.old + k) heap.old host.old) }
    ensures memory { OnErr result (IsTrue H.may_want_memory) }
    ensures within { left.new ≤ left.old }
    ensures fits { H.fits host.new heap.new }
    ensures grows { Grows heap.old heap.new }
{
    while take_part(rows, heap, host, at, next, left)? {}
    Ok(())
}

/// What is ahead of a run: what it goes on with, what the part does next that was open last, and the units that are left.
#[derive(Drop)]
pub(crate) struct Ahead {
    pub control: Control,
    pub next: Next,
    pub left: u64,
}

impl Ahead {
    /// Whether nobody has tried to do the part at once that is entered next.
    fn is_untried(&self) -> bool {
        !matches!(self.next, Next::Ask(_, _) | Next::Turn(_, _))
    }
}

/// A part is entered, for which at least one unit is left; at once where that can be, if nobody has tried it.
fn enter<R: Rows, H: Host>(
    rows: &R,
    heap: &mut Heap,
    host: &mut H,
    stack: &mut Stack,
    part: &Part,
    ahead: &mut Ahead,
) -> Result<(), NoMemory>
    requires fits { H.fits host.old heap.old }
    requires inside { IsInside stack.old.most (Control.Enter part.now) stack.old.frames }
    requires some { 0 < ahead.old.left }
    requires room { count_of_values stack.old.frames < stack.old.room }
    ensures rest { OnOk result (SameRest H.answers (R.table rows.now)
        (Control.Enter part.now) stack.old.frames ahead.old.left heap.old host.old
        ahead.new.control stack.new.frames ahead.new.left heap.new host.new) }
    ensures weight { OnOk result (weight ahead.new.control stack.new.frames
        ≤ 2 * length stack.old.frames + 2) }
    ensures inside { OnOk result (IsInside stack.new.most ahead.new.control stack.new.frames) }
    ensures values { OnOk result (most_values ahead.new.control stack.new.frames ahead.new.left
        ≤ most_values (Control.Enter part.now) stack.old.frames ahead.old.left) }
    ensures kept { OnErr result ((stack.new ≡ stack.old)
        × (ahead.new.control ≡ ahead.old.control)) }
    ensures memory { OnErr result (IsTrue H.may_want_memory) }
    ensures less { ahead.new.left < ahead.old.left }
    ensures most { (stack.new.most ≡ stack.old.most) × (stack.new.room ≡ stack.old.room) }
    ensures fits { H.fits host.new heap.new }
    ensures grows { Grows heap.old heap.new }
{
    if part.room == 0 {
        ahead.left -= 1;
        let stop = Stop::Limit(Limit::Depth);
        ahead.control = Control::Halted { stop, room: 0 };
        return Ok(());
    }
    if ahead.is_untried() {
        if let Some(done) = rows.at_once(heap, part, ahead.left) {
            ahead.left -= done.units;
            ahead.control = Control::Give(done.completion);
            return Ok(());
        }
    }
    ahead.left -= 1;
    enter_row(rows, heap, host, stack, part, ahead)
}

/// What a part does first whose unit was taken, and after it the parts that are done at once.
fn begin<R: Rows, H: Host>(
    rows: &R,
    heap: &mut Heap,
    host: &mut H,
    part: &Part,
    next: &mut Next,
    left: &mut u64,
) -> Result<(), NoMemory>
    requires fits { H.fits host.old heap.old }
    ensures run { OnOk result ((k : ℕ) → next_run H.answers (R.table rows.now) part.now next.new
        (left.new + k) heap.new host.new ≡ run H.answers (R.table rows.now) (part.now.room - 1)
        ((R.table rows.now).row part.now heap.old) (left.old + k) host.old) }
    ensures memory { OnErr result (IsTrue H.may_want_memory) }
    ensures within { left.new ≤ left.old }
    ensures fits { H.fits host.new heap.new }
    ensures grows { Grows heap.old heap.new }
{
    rows.begin(heap, part, next);
    take_parts(rows, heap, host, part, next, left)
}

/// A part is entered by its row, whose unit was taken.
fn enter_row<R: Rows, H: Host>(
    rows: &R,
    heap: &mut Heap,
    host: &mut H,
    stack: &mut Stack,
    part: &Part,
    ahead: &mut Ahead,
) -> Result<(), NoMemory>
    requires fits { H.fits host.old heap.old }
    requires inside { IsInside stack.old.most (Control.Enter part.now) stack.old.frames }
    requires some { 0 < part.now.room }
    requires room { count_of_values stack.old.frames < stack.old.room }
    ensures rest { OnOk result (SameRest H.answers (R.table rows.now)
        (Control.Enter part.now) stack.old.frames (ahead.old.left + 1) heap.old host.old
        ahead.new.control stack.new.frames ahead.new.left heap.new host.new) }
    ensures weight { OnOk result (weight ahead.new.control stack.new.frames
        ≤ 2 * length stack.old.frames + 2) }
    ensures inside { OnOk result (IsInside stack.new.most ahead.new.control stack.new.frames) }
    ensures values { OnOk result (most_values ahead.new.control stack.new.frames ahead.new.left
        ≤ most_values (Control.Enter part.now) stack.old.frames (ahead.old.left + 1)) }
    ensures kept { OnErr result ((stack.new ≡ stack.old)
        × (ahead.new.control ≡ ahead.old.control)) }
    ensures memory { OnErr result (IsTrue H.may_want_memory) }
    ensures within { ahead.new.left ≤ ahead.old.left }
    ensures most { (stack.new.most ≡ stack.old.most) × (stack.new.room ≡ stack.old.room) }
    ensures fits { H.fits host.new heap.new }
    ensures grows { Grows heap.old heap.new }
{
    begin(rows, heap, host, part, &mut ahead.next, &mut ahead.left)?;
    open(stack, part, &ahead.next, &mut ahead.control);
    Ok(())
}

/// Next is what the innermost frame does with a completion, where values are beside it. For the time of the call the value of
/// the completion stands behind them.
fn finish_beside<R: Rows, H: Host>(
    rows: &R,
    heap: &mut Heap,
    host: &mut H,
    stack: &mut Stack,
    frame: &Frame,
    c: &Completion,
    next: &mut Next,
) -> Result<(), NoMemory>
    requires fits { H.fits host.old heap.old }
    requires frame { stack.old.frames ≡ without_last stack.old.frames
        ++ framed frame.now (last_values stack.old.frames) ∷ [] }
    requires room { count_of_values stack.old.frames < stack.old.room }
    ensures row { OnOk result ((
      as_row (R.table rows.now) frame.now.at next.new (last_values stack.old.frames) heap.new,
      host.new,
    ) ≡ settle H.answers ((R.table rows.now).rest
        (framed frame.now (last_values stack.old.frames)) c.now heap.old) host.old) }
    ensures stack { stack.new ≡ stack.old }
    ensures memory { OnErr result (IsTrue H.may_want_memory) }
    ensures fits { H.fits host.new heap.new }
    ensures grows { Grows heap.old heap.new }
{
    match c {
        Completion::Normal(v) => {
            kept(stack, frame, v);
            let all = stack.values();
            let values = &all[..all.len() - 1];
            let then = rows.finish(heap, host, &frame.at, &frame.wait, values, all, c, next);
            stack.take_back(frame);
            then
        },
        _ => rows.finish(
            heap,
            host,
            &frame.at,
            &frame.wait,
            stack.values(),
            &[],
            c,
            next,
        ),
    }
}

/// A completion is given to the innermost frame; where there is none, nothing is done.
fn give<R: Rows, H: Host>(
    rows: &R,
    heap: &mut Heap,
    host: &mut H,
    stack: &mut Stack,
    c: &Completion,
    ahead: &mut Ahead,
) -> Result<bool, NoMemory>
    requires fits { H.fits host.old heap.old }
    requires inside { IsInside stack.old.most (Control.Give c.now) stack.old.frames }
    requires room { count_of_values stack.old.frames < stack.old.room }
    ensures rest { IfOk result (λ given. MatchBool given
        (SameRest H.answers (R.table rows.now)
        (Control.Give c.now) stack.old.frames ahead.old.left heap.old host.old
        ahead.new.control stack.new.frames ahead.new.left heap.new host.new)
        ((stack.old.frames ≡ []) × (ahead.new ≡ ahead.old) × (stack.new ≡ stack.old)
        × (heap.new ≡ heap.old) × (host.new ≡ host.old))) }
    ensures weight { IfOk result (λ given. MatchBool given
        (weight ahead.new.control stack.new.frames < weight (Control.Give c.now) stack.old.frames) ⊤) }
    ensures inside { IfOk result (λ given. MatchBool given
        (IsInside stack.new.most ahead.new.control stack.new.frames) ⊤) }
    ensures values { IfOk result (λ given. MatchBool given
        (most_values ahead.new.control stack.new.frames ahead.new.left
        ≤ most_values (Control.Give c.now) stack.old.frames ahead.old.left) ⊤) }
    ensures kept { OnErr result ((stack.new ≡ stack.old)
        × (ahead.new.control ≡ ahead.old.control)) }
    ensures memory { OnErr result (IsTrue H.may_want_memory) }
    ensures within { ahead.new.left ≤ ahead.old.left }
    ensures most { (stack.new.most ≡ stack.old.most) × (stack.new.room ≡ stack.old.room) }
    ensures fits { H.fits host.new heap.new }
    ensures grows { Grows heap.old heap.new }
{
    let frame = match stack.top() {
        Some(frame) => frame,
        None => return Ok(false),
    };
    let at = frame.at;
    if stack.values().is_empty() {
        finish_alone(rows, heap, host, &at, &frame.wait, c, ahead)?;
    } else {
        let frame = *frame;
        finish_beside(rows, heap, host, stack, &frame, c, &mut ahead.next)?;
    }
    reopen(stack, &at, &ahead.next, &mut ahead.control);
    Ok(true)
}

/// What a frame does with a completion, where no values are beside it, and after it the parts that are done at once.
fn finish_alone<R: Rows, H: Host>(
    rows: &R,
    heap: &mut Heap,
    host: &mut H,
    at: &Part,
    wait: &Wait,
    c: &Completion,
    ahead: &mut Ahead,
) -> Result<(), NoMemory>
    requires fits { H.fits host.old heap.old }
    ensures run { OnOk result ((k : ℕ) → next_run H.answers (R.table rows.now) at.now
        ahead.new.next (ahead.new.left + k) heap.new host.new
        ≡ run H.answers (R.table rows.now) (at.now.room - 1)
        ((R.table rows.now).rest (framed (waiting at.now wait.now) []) c.now heap.old)
        (ahead.old.left + k) host.old) }
    ensures control { ahead.new.control ≡ ahead.old.control }
    ensures memory { OnErr result (IsTrue H.may_want_memory) }
    ensures within { ahead.new.left ≤ ahead.old.left }
    ensures fits { H.fits host.new heap.new }
    ensures grows { Grows heap.old heap.new }
{
    if let Some(place) = RoundWait::of(wait) {
        ahead.next = go_round::<R, H>(rows, heap, at, &place, c, &mut ahead.left);
        return Ok(());
    }
    rows.finish(heap, host, at, wait, &[], &[], c, &mut ahead.next)?;
    take_parts(rows, heap, host, at, &mut ahead.next, &mut ahead.left)
}

/// Takes more room for values where each that there is holds one. A run for whose units there is room never gets here.
fn spare(stack: &mut Stack) -> Result<(), NoMemory>
    ensures ok { OnOk result (count_of_values stack.new.frames < stack.new.room) }
    ensures frames { (stack.new.frames ≡ stack.old.frames) × (stack.new.most ≡ stack.old.most) }
    ensures room { stack.old.room ≤ stack.new.room }
    ensures kept { OnErr result (stack.new ≡ stack.old) }
    ensures memory { OnErr result (stack.old.room ≤ count_of_values stack.old.frames) }
{
    if stack.count() < stack.room() {
        return Ok(());
    }
    if stack.room() == u32::MAX {
        return Err(NoMemory);
    }
    stack.reserve(stack.room().saturating_mul(2).saturating_add(1))
}

/// One step of a run, and whether there was one: none where no unit is left for a part, or the run is at its end. Memory is
/// wanting where the host may want it, or for a value that has no room.
fn step<R: Rows, H: Host>(
    rows: &R,
    heap: &mut Heap,
    host: &mut H,
    stack: &mut Stack,
    ahead: &mut Ahead,
) -> Result<bool, NoMemory>
    requires fits { H.fits host.old heap.old }
    requires inside { IsInside stack.old.most ahead.old.control stack.old.frames }
    ensures rest { OnOk result (SameRest H.answers (R.table rows.now)
        ahead.old.control stack.old.frames ahead.old.left heap.old host.old
        ahead.new.control stack.new.frames ahead.new.left heap.new host.new) }
    ensures stands { IfOk result (λ stepped. MatchBool stepped ⊤
        (Stands ahead.new.control stack.new.frames ahead.new.left)) }
    ensures weight { IfOk result (λ stepped. MatchBool stepped
        (3 * ahead.new.left + weight ahead.new.control stack.new.frames
        < 3 * ahead.old.left + weight ahead.old.control stack.old.frames) ⊤) }
    ensures within { ahead.new.left ≤ ahead.old.left }
    ensures inside { IsInside stack.new.most ahead.new.control stack.new.frames }
    ensures values { most_values ahead.new.control stack.new.frames ahead.new.left
        ≤ most_values ahead.old.control stack.old.frames ahead.old.left }
    ensures memory { OnErr result (WantsMemory H.may_want_memory stack.old.room
        (most_values ahead.old.control stack.old.frames ahead.old.left)) }
    ensures most { (stack.new.most ≡ stack.old.most) × (stack.old.room ≤ stack.new.room) }
    ensures fits { H.fits host.new heap.new }
    ensures grows { Grows heap.old heap.new }
{
    match &ahead.control {
        Control::Enter(part) => {
            if ahead.left == 0 {
                return Ok(false);
            }
            let part = *part;
            spare(stack)?;
            enter(rows, heap, host, stack, &part, ahead)?;
            Ok(true)
        },
        Control::Give(c) => {
            let c = *c;
            spare(stack)?;
            give(rows, heap, host, stack, &c, ahead)
        },
        Control::Halted { .. } => Ok(false),
    }
}

/// Runs until no unit is left for a part, or to the end.
pub(crate) fn steps<R: Rows, H: Host>(
    rows: &R,
    heap: &mut Heap,
    host: &mut H,
    stack: &mut Stack,
    ahead: &mut Ahead,
) -> Result<(), NoMemory>
    requires fits { H.fits host.old heap.old }
    requires inside { IsInside stack.old.most ahead.old.control stack.old.frames }
    ensures rest { OnOk result (SameRest H.answers (R.table rows.now)
        ahead.old.control stack.old.frames ahead.old.left heap.old host.old
        ahead.new.control stack.new.frames ahead.new.left heap.new host.new) }
    ensures stands { OnOk result (Stands ahead.new.control stack.new.frames ahead.new.left) }
    ensures within { ahead.new.left ≤ ahead.old.left }
    ensures inside { IsInside stack.new.most ahead.new.control stack.new.frames }
    ensures values { most_values ahead.new.control stack.new.frames ahead.new.left
        ≤ most_values ahead.old.control stack.old.frames ahead.old.left }
    ensures memory { OnErr result (WantsMemory H.may_want_memory stack.old.room
        (most_values ahead.old.control stack.old.frames ahead.old.left)) }
    ensures most { (stack.new.most ≡ stack.old.most) × (stack.old.room ≤ stack.new.room) }
    ensures fits { H.fits host.new heap.new }
    ensures grows { Grows heap.old heap.new }
{
    while step(rows, heap, host, stack, ahead)? {}
    Ok(())
}
