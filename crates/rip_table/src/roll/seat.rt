ghost use Rattle.std.specs.Prelude.{◌≡◌, ◌<◌, ◌^◌, List, [], false, None, IfOk, IfErr, IfSome, OnOk, OnErr, option_map};
ghost use Rattle.std.specs.Option.{option_copied};
ghost use Rattle.rip_wire.specs.Batches.{contents_of, IsBatch};
ghost use Rattle.rip_history.specs.Services.{Called, Service as Meant};
ghost use Rattle.rip_history.specs.Stages.{Stage, begun, with_batch, is_done, MayAdmit};
ghost use Rattle.rip_history.specs.declared.sessions.Progress.TheVariants.{Busy as Unfinished};
ghost use Rattle.rip_table.specs.Seats.{standing_in, notes_in, session_in, opening_of, IsThere, IsOpened, IsAdmitted, HasBatch, IsClosed, IsSettled, IsGivenUp, LivingSlice, SeatSlice, SliceOf, ends_session, is_unfinished};
ghost use Rattle.rip_table.specs.declared.roll.seat.Notes.{Notes as Noted};

use rip_base::NoMemory;
use rip_history::{Made, Progress, Service, Sessions, Slice, Standing};
use rip_http::Opening;
use rip_log::Entry;
use rip_wire::{Batch, Ending, Reason, ServedCall};
use std::alloc::Global;
use std::mem;
use uuid::Uuid;

/// What is kept of a session.
#[derive(Drop)]
pub enum Seat<T> {
    /// It lives. What it has stands apart, so that a seat takes little room.
    Live(Box<Living<T>>),
    /// It has ended: the number of its last batch, and why.
    Ended { last: u64, reason: Reason },
}

// A seat takes so many bytes, whatever runs in it.
const _: () = prove!(size_of::<Seat<Notes>>() == 24);

/// What a session has that lives.
#[derive(Drop)]
pub struct Living<T> {
    pub session: T,
    pub standing: Standing,
    pub notes: Notes,
}

/// How a session was opened, and what its batches served.
#[derive(Drop)]
pub struct Notes {
    pub opening: Opening,
    /// The calls that the last batch that was done served.
    pub told: Vec<ServedCall>,
    /// The calls that the batch that is not done served so far.
    pub making: Vec<ServedCall>,
}

/// What a session that its batch ended leaves for the answer to that.
#[derive(Drop)]
pub struct Legacy {
    pub opening: Opening,
    /// The calls that the batch served.
    pub told: Vec<ServedCall>,
}

/// What a busy session did in a slice.
#[derive(Drop)]
pub struct Advanced {
    /// The number of its batch.
    pub batch: u64,
    /// The entries of the calls that it served.
    pub entries: Vec<Entry>,
    /// Whether its batch is done.
    pub progress: Progress,
    /// What it leaves, if its batch ended it.
    pub legacy: Option<Legacy>,
}

impl<T: Drop> Seat<T> {
    /// How the session stands.
    pub fn standing(&self) -> Standing
        ensures { result ≡ standing_in self.now }
    {
        match self {
            Seat::Live(living) => living.standing,
            Seat::Ended { last, reason } => Standing {
                last: *last,
                done: Some(*last),
                ended: Some(*reason),
            },
        }
    }

    /// The opening of a session that lives.
    pub fn opening(&self) -> Option<Opening>
        ensures { result ≡ option_map (λ (n : Noted). n.opening) (notes_in self.now) }
    {
        match self {
            Seat::Live(living) => Some(living.notes.opening),
            Seat::Ended { .. } => None,
        }
    }

    /// The calls that the last batch of a session that lives served.
    pub fn told(&self) -> &[ServedCall]
        ensures { IfSome (notes_in self.now) (λ notes. result.now ≡ notes.told.items) }
    {
        match self {
            Seat::Live(living) => living.notes.told.as_slice(),
            Seat::Ended { .. } => &[],
        }
    }

    /// The session, if it lives.
    pub fn session(&self) -> Option<&T>
        ensures { option_copied result ≡ session_in self.now }
    {
        match self {
            Seat::Live(living) => Some(&living.session),
            Seat::Ended { .. } => None,
        }
    }
}

impl Notes {
    /// Of a session that is opened: no call yet.
    fn first(alloc: Global, id: u128, seed: u32, time: u64) -> Notes
        ensures opening { result.opening ≡ opening_of id seed time }
        ensures told { result.told.items ≡ [] }
        ensures making { result.making.items ≡ [] }
    {
        Notes {
            opening: Opening {
                id: Uuid::from_u128(id),
                seed,
                time,
            },
            told: Vec::new(alloc),
            making: Vec::new(alloc),
        }
    }
}

impl Advanced {
    /// Nothing was done.
    pub fn none(alloc: Global) -> Advanced
        ensures batch { result.batch ≡ 0 }
        ensures entries { result.entries.items ≡ [] }
        ensures progress { result.progress ≡ Unfinished }
        ensures legacy { result.legacy ≡ None }
    {
        Advanced {
            batch: 0,
            entries: Vec::new(alloc),
            progress: Progress::Busy,
            legacy: None,
        }
    }

    /// The batch is not done.
    pub fn is_busy(&self) -> bool
        ensures { result ≡ is_unfinished self.now.progress }
    {
        matches!(self.progress, Progress::Busy)
    }

    /// The batch ended the session.
    pub fn has_ended(&self) -> bool
        ensures { result ≡ ends_session self.now.progress }
    {
        matches!(self.progress, Progress::Finished(Some(_)))
    }
}

/// A session as it is opened.
pub fn open<S: Sessions>(
    alloc: Global,
    sessions: &S,
    id: u128,
    seed: u32,
    time: u64,
) -> Result<Seat<S::Session>, NoMemory>
    requires { time < 2 ^ 53 }
    ensures opened { IfOk result (IsOpened id seed time) }
    ensures stands { IfOk result
        (λ seat. IsThere (S.stands sessions.now) seat (begun seed time)) }
{
    let session = sessions.begin(alloc, seed, time)?;
    let living = Living {
        session,
        standing: Standing::opened(),
        notes: Notes::first(alloc, id, seed, time),
    };
    Ok(Seat::Live(Box::new(alloc, living)?))
}

/// Admits a batch. It is handed back for want of memory, and then the session is as before.
pub fn admit<S: Sessions>(
    alloc: Global,
    sessions: &S,
    seat: &mut Seat<S::Session>,
    batch: Batch,
) -> Result<(), Batch>
    requires { IsBatch (contents_of batch) }
    ensures admitted { OnOk result (IsAdmitted batch.number seat.old seat.new) }
    ensures stands { (st : Stage) → IsThere (S.stands sessions.now) seat.old st
        → MayAdmit (S.meaning sessions.now) st (contents_of batch)
        → OnOk result
        (IsThere (S.stands sessions.now) seat.new (with_batch (contents_of batch) st)) }
    ensures memory { OnErr result (seat.new ≡ seat.old) }
    ensures back { IfErr result (λ b. b ≡ batch) }
{
    match seat {
        Seat::Live(living) => admit_to(alloc, sessions, living, batch),
        Seat::Ended { .. } => Err(batch),
    }
}

fn admit_to<S: Sessions>(
    alloc: Global,
    sessions: &S,
    living: &mut Living<S::Session>,
    batch: Batch,
) -> Result<(), Batch>
    requires { IsBatch (contents_of batch) }
    ensures admitted { OnOk result (HasBatch batch.number living.old living.new) }
    ensures stands { (st : Stage) → S.stands sessions.now living.old.session st
        → MayAdmit (S.meaning sessions.now) st (contents_of batch)
        → OnOk result
        (S.stands sessions.now living.new.session (with_batch (contents_of batch) st)) }
    ensures memory { OnErr result (living.new ≡ living.old) }
    ensures back { IfErr result (λ b. b ≡ batch) }
{
    let number = batch.number;
    sessions.admit(alloc, &mut living.session, batch)?;
    living.standing = living.standing.admit(number);
    Ok(())
}

/// Ends the session for its client.
pub fn close<T: Drop>(seat: &mut Seat<T>)
    ensures { IsClosed seat.old seat.new }
{
    let last = seat.standing().last;
    *seat = Seat::Ended {
        last,
        reason: Reason::Closed,
    };
}

/// Goes on with a busy session for a slice. If its batch ends it, what it has is given up.
pub fn advance<S: Sessions, V: Service>(
    alloc: Global,
    sessions: &S,
    service: &mut V,
    slice: &Slice,
    seat: &mut Seat<S::Session>,
) -> Advanced
    requires { slice.now.time < 2 ^ 53 }
    ensures { (st : Stage) (meant : Meant) (calls : List Called)
        → IsThere (S.stands sessions.now) seat.old st
        → is_done (S.meaning sessions.now) st ≡ false → V.replies_as service.old meant calls
        → SliceOf (S.meaning sessions.now) st meant calls slice.now seat.old seat.new result
        (S.stands sessions.now) (V.replies_as service.new meant) }
{
    let advanced = resume(alloc, sessions, service, slice, seat);
    give_up(seat, &advanced);
    advanced
}

fn resume<S: Sessions, V: Service>(
    alloc: Global,
    sessions: &S,
    service: &mut V,
    slice: &Slice,
    seat: &mut Seat<S::Session>,
) -> Advanced
    requires { slice.now.time < 2 ^ 53 }
    ensures { (st : Stage) (meant : Meant) (calls : List Called)
        → IsThere (S.stands sessions.now) seat.old st
        → is_done (S.meaning sessions.now) st ≡ false → V.replies_as service.old meant calls
        → SeatSlice (S.meaning sessions.now) st meant calls slice.now seat.old seat.new result
        (S.stands sessions.now) (V.replies_as service.new meant) }
{
    match seat {
        Seat::Live(living) => go_on(alloc, sessions, service, slice, living),
        Seat::Ended { .. } => Advanced::none(alloc),
    }
}

/// A session that its batch ended is given up.
fn give_up<T: Drop>(seat: &mut Seat<T>, advanced: &Advanced)
    ensures { IsGivenUp advanced.now.progress advanced.now.batch seat.old seat.new }
{
    if let Progress::Finished(Some(how)) = &advanced.progress {
        *seat = Seat::Ended {
            last: advanced.batch,
            reason: how.reason(),
        };
    }
}

/// Goes on with a session that is busy.
fn go_on<S: Sessions, V: Service>(
    alloc: Global,
    sessions: &S,
    service: &mut V,
    slice: &Slice,
    living: &mut Living<S::Session>,
) -> Advanced
    requires { slice.now.time < 2 ^ 53 }
    ensures { (st : Stage) (meant : Meant) (calls : List Called)
        → S.stands sessions.now living.old.session st
        → is_done (S.meaning sessions.now) st ≡ false → V.replies_as service.old meant calls
        → LivingSlice (S.meaning sessions.now) st meant calls slice.now living.old living.new result
        (S.stands sessions.now) (V.replies_as service.new meant) }
{
    let mut made = Made {
        entries: Vec::new(alloc),
        served: mem::replace(&mut living.notes.making, Vec::new(alloc)),
    };
    let progress = sessions.resume(alloc, &mut living.session, service, slice, &mut made);
    let batch = living.standing.last;
    let legacy = settle(living, &progress, made.served);
    Advanced {
        batch,
        entries: made.entries,
        progress,
        legacy,
    }
}

/// Keeps what the batch served: it is not done, or it is. If it ended the session, that is handed on.
fn settle<T: Drop>(
    living: &mut Living<T>,
    progress: &Progress,
    served: Vec<ServedCall>,
) -> Option<Legacy>
    ensures { IsSettled progress.now served.items living.old living.new result }
{
    match progress {
        Progress::Busy => {
            living.notes.making = served;
            None
        }
        Progress::Finished(how) => finish(living, how, served),
    }
}

/// The batch is done so, and served these calls.
fn finish<T: Drop>(
    living: &mut Living<T>,
    how: &Option<Ending>,
    served: Vec<ServedCall>,
) -> Option<Legacy>
    ensures { IsSettled (Progress.Finished how.now) served.items living.old living.new result }
{
    match how {
        None => {
            living.notes.told = served;
            living.standing = living.standing.finish(living.standing.last, None);
            None
        }
        Some(_) => Some(Legacy {
            opening: living.notes.opening,
            told: served,
        }),
    }
}
