ghost use Rattle.std.specs.Prelude.{◌≡◌, ◌≢◌, ◌<◌, ◌+◌, ◌^◌, ℕ, List, [], ◌∷◌, ◌++◌, length, map, true, false, Some, IfSome, IfNone, IfOk, IfErr, OnOk, OnErr, is_some};
ghost use Rattle.std.specs.Option.{option_copied};
ghost use Rattle.std.specs.Bool.{OnTrue, OnFalse};
ghost use Rattle.rip_log.specs.Entries.{Recorded, opened, admitted, closed};
ghost use Rattle.rip_wire.specs.Answers.{served_of};
ghost use Rattle.rip_wire.specs.Batches.{contents_of, IsBatch};
ghost use Rattle.rip_history.specs.Answering.{opening_told};
ghost use Rattle.rip_history.specs.Decisions.{batch_decision, close_decision};
ghost use Rattle.rip_history.specs.Requests.{identifiers_in, session_named, was_opened, served_in};
ghost use Rattle.rip_history.specs.Run.{busy_in, called_so_far, stage_of, with_batch_at};
ghost use Rattle.rip_history.specs.Services.{Called, Service as Meant};
ghost use Rattle.rip_history.specs.Stages.{Stage, begun, with_batch, is_done, MayAdmit};
ghost use Rattle.rip_history.specs.Standings.{standing_of, is_live};
ghost use Rattle.rip_history.specs.declared.decision.BatchDecision.TheVariants.{Admit};
ghost use Rattle.rip_history.specs.declared.decision.CloseDecision.TheVariants.{Close};
ghost use Rattle.rip_history.specs.declared.standing.Standing.{Standing as Stood};
ghost use Rattle.rip_table.specs.Table.{IsTable, Opens, IsSame, at_ordinal, live_value, ids};
ghost use Rattle.rip_table.specs.Rolls.{IsAtRest, IsChanged, IsKept, IsLiveAt, IsRollOf, IsSound, WentOn, lives_at, room_in, session_at, waiting};
ghost use Rattle.rip_table.specs.Seats.{IsAdmitted, IsClosed, IsThere, SliceOf, ends_session};
ghost use Rattle.rip_table.specs.declared.roll.seat.Seat.{Seat as Kept};

use crate::roll::busy::Busy;
use crate::roll::seat::{self, Advanced, Seat};
use crate::{MOST_SESSIONS, Table};
use rip_base::NoMemory;
use rip_history::{Service, Sessions, Slice, Standing};
use rip_http::Opening;
use rip_wire::{Batch, ServedCall};
use std::alloc::Global;

/// The sessions of a server, in the order of their opening, and which of them are busy.
#[derive(Drop)]
pub struct Roll<T> {
    table: Table<Seat<T>>,
    busy: Busy,
    limit: u32,
}

/// Whether there is room for a session more.
#[derive(Clone, Copy, Debug, PartialEq, Eq)]
pub enum Room {
    Free,
    /// As many sessions live as may.
    Full,
    /// As many were opened as a run opens.
    Spent,
}

impl<T: Drop> Roll<T> {
    /// No session yet, and so many may live at once.
    pub fn make(alloc: Global, limit: u32) -> Result<Roll<T>, NoMemory>
        ensures sound { IfOk result IsSound }
        ensures rest { IfOk result IsAtRest }
        ensures kept { IfOk result (λ roll. IsKept limit roll []) }
    {
        Ok(Roll {
            table: Table::make(alloc, limit)?,
            busy: Busy::make(alloc),
            limit,
        })
    }

    /// The ordinal of the session of an identifier.
    pub fn named(&self, id: u128) -> Option<u32>
        requires { IsSound self.now }
        ensures { (limit : ℕ) (h : List Recorded) → IsKept limit self.now h
            → result ≡ session_named id h }
    {
        self.table.ordinal(id)
    }

    /// A session was opened with this identifier.
    pub fn was_opened(&self, id: u128) -> bool
        requires { IsSound self.now }
        ensures { (limit : ℕ) (h : List Recorded) → IsKept limit self.now h
            → result ≡ was_opened id h }
    {
        self.table.ordinal(id).is_some()
    }

    pub fn room(&self) -> Room
        requires { IsSound self.now }
        ensures { (limit : ℕ) (h : List Recorded) → IsKept limit self.now h
            → result ≡ room_in limit h }
    {
        if self.table.live() >= self.limit {
            Room::Full
        } else if self.table.count() as usize >= MOST_SESSIONS {
            Room::Spent
        } else {
            Room::Free
        }
    }

    /// How the session of an ordinal stands, if it was opened.
    pub fn standing(&self, session: u32) -> Option<Standing>
        ensures { (limit : ℕ) (h : List Recorded) → IsKept limit self.now h
            → result ≡ standing_of session h }
    {
        match self.table.any_at(session) {
            Some(seat) => Some(seat.standing()),
            None => None,
        }
    }

    /// The opening of a session that lives. One that has ended gave it up.
    pub fn opening(&self, session: u32) -> Option<Opening>
        ensures { (limit : ℕ) (h : List Recorded) (s : Stood) → IsKept limit self.now h
            → standing_of session h ≡ Some s → is_live s ≡ true
            → result ≡ opening_told session h }
    {
        match self.table.any_at(session) {
            Some(seat) => seat.opening(),
            None => None,
        }
    }

    /// The calls that the last batch of a session that lives served. One that has ended gave them up.
    pub fn served(&self, session: u32) -> &[ServedCall]
        ensures { (limit number : ℕ) (h : List Recorded) (s : Stood) → IsKept limit self.now h
            → standing_of session h ≡ Some s → is_live s ≡ true → s.done ≡ Some number
            → map served_of result.now ≡ served_in session number h }
    {
        match self.table.any_at(session) {
            Some(seat) => seat.told(),
            None => &[],
        }
    }

    /// The session of an ordinal, as it stands at its stage, if one that lives has it.
    pub fn session<S: Sessions<Session = T>>(&self, ordinal: u32) -> Option<&T>
        ensures session { option_copied result ≡ session_at self.now ordinal }
        ensures lives { (limit : ℕ) (h : List Recorded) → IsKept limit self.now h
            → is_some (option_copied result) ≡ lives_at ordinal h }
        ensures stands { (sessions : S) (limit : ℕ) (h : List Recorded) (stages : List Stage)
            → IsRollOf (S.stands sessions) (S.meaning sessions) limit self.now h stages
            → IfSome (option_copied result)
            (IsLiveAt (S.stands sessions) (S.meaning sessions) ordinal stages) }
    {
        match self.table.any_at(ordinal) {
            Some(seat) => seat.session(),
            None => None,
        }
    }

    /// A session is busy.
    pub fn is_busy(&self) -> bool
        requires { IsAtRest self.now }
        ensures busy { OnTrue result ((limit : ℕ) (h : List Recorded) → IsKept limit self.now h
            → busy_in h ≢ []) }
        ensures idle { OnFalse result ((limit : ℕ) (h : List Recorded) → IsKept limit self.now h
            → busy_in h ≡ []) }
    {
        !self.busy.is_empty()
    }

    /// The busy session that goes on next, if one is left.
    pub fn next_busy(&self) -> Option<u32>
        ensures some { IfSome result (λ n. (rest : List ℕ) × (waiting self.now ≡ n ∷ rest)) }
        ensures none { IfNone result (waiting self.now ≡ []) }
    {
        self.busy.next()
    }

    /// Each busy session went on.
    pub fn end_walk<S: Sessions<Session = T>>(&mut self)
        requires sound { IsSound self.old }
        requires over { waiting self.old ≡ [] }
        ensures sound { IsSound self.new }
        ensures rest { IsAtRest self.new }
        ensures same { (sessions : S) (limit : ℕ) (h : List Recorded) (stages : List Stage)
            → IsRollOf (S.stands sessions) (S.meaning sessions) limit self.old h stages
            → IsRollOf (S.stands sessions) (S.meaning sessions) limit self.new h stages }
    {
        self.busy.rewind();
    }

    /// Opens a session and answers its ordinal. There is room, and none was opened with this identifier.
    pub fn open<S: Sessions<Session = T>>(
        &mut self,
        alloc: Global,
        sessions: &S,
        id: u128,
        seed: u32,
        time: u64,
    ) -> Result<u32, NoMemory>
        requires sound { IsSound self.old }
        requires rest { IsAtRest self.old }
        requires time { time < 2 ^ 53 }
        ensures sound { IsSound self.new }
        ensures rest { IsAtRest self.new }
        ensures opened { (limit turn : ℕ) (h : List Recorded) (stages : List Stage)
            → IsRollOf (S.stands sessions.now) (S.meaning sessions.now) limit self.old h stages
            → IfOk result (λ n. (n ≡ length (identifiers_in h) + 1)
            × IsRollOf (S.stands sessions.now) (S.meaning sessions.now) limit self.new
            (h ++ opened turn n id seed time ∷ []) (stages ++ begun seed time ∷ [])) }
        ensures memory { (limit : ℕ) (h : List Recorded) (stages : List Stage)
            → IsRollOf (S.stands sessions.now) (S.meaning sessions.now) limit self.old h stages
            → OnErr result
            (IsRollOf (S.stands sessions.now) (S.meaning sessions.now) limit self.new h stages) }
    {
        self.busy.reserve()?;
        let seat = seat::open(alloc, sessions, id, seed, time)?;
        let session = self.insert(alloc, id, seat)?;
        self.busy.add(session);
        Ok(session)
    }

    fn insert(&mut self, alloc: Global, id: u128, seat: Seat<T>) -> Result<u32, NoMemory>
        requires { IsTable self.old.table }
        ensures table { IsTable self.new.table }
        ensures opens { OnOk result (Opens self.old.table self.new.table id seat) }
        ensures ordinal { IfOk result (λ n. n ≡ length (ids self.old.table) + 1) }
        ensures same { OnErr result (IsSame self.old.table self.new.table) }
        ensures busy { self.new.busy ≡ self.old.busy }
        ensures limit { self.new.limit ≡ self.old.limit }
    {
        match self.table.insert(alloc, id, seat) {
            Ok(session) => Ok(session),
            Err(_) => Err(NoMemory),
        }
    }

    /// Admits a batch to a session. It is handed back for want of memory, and then all is as before.
    pub fn admit<S: Sessions<Session = T>>(
        &mut self,
        alloc: Global,
        sessions: &S,
        session: u32,
        batch: Batch,
    ) -> Result<(), Batch>
        requires sound { IsSound self.old }
        requires rest { IsAtRest self.old }
        requires batch { IsBatch (contents_of batch) }
        ensures sound { IsSound self.new }
        ensures rest { IsAtRest self.new }
        ensures admitted { (limit turn : ℕ) (h : List Recorded) (stages : List Stage) (s : Stood)
            → IsRollOf (S.stands sessions.now) (S.meaning sessions.now) limit self.old h stages
            → standing_of session h ≡ Some s → batch_decision s batch.number ≡ Admit
            → OnOk result (IsRollOf (S.stands sessions.now) (S.meaning sessions.now) limit self.new
            (h ++ admitted turn session (contents_of batch) ∷ [])
            (with_batch_at session (contents_of batch) (stage_of session stages) stages)) }
        ensures memory { (limit : ℕ) (h : List Recorded) (stages : List Stage)
            → IsRollOf (S.stands sessions.now) (S.meaning sessions.now) limit self.old h stages
            → OnErr result
            (IsRollOf (S.stands sessions.now) (S.meaning sessions.now) limit self.new h stages) }
        ensures back { IfErr result (λ b. b ≡ batch) }
    {
        if self.busy.reserve().is_err() {
            return Err(batch);
        }
        self.admit_at(alloc, sessions, session, batch)?;
        self.busy.add(session);
        Ok(())
    }

    fn admit_at<S: Sessions<Session = T>>(
        &mut self,
        alloc: Global,
        sessions: &S,
        session: u32,
        batch: Batch,
    ) -> Result<(), Batch>
        requires table { IsTable self.old.table }
        requires batch { IsBatch (contents_of batch) }
        ensures table { IsTable self.new.table }
        ensures busy { self.new.busy ≡ self.old.busy }
        ensures limit { self.new.limit ≡ self.old.limit }
        ensures admitted { (st : Stage) (seat : Kept T)
            → at_ordinal (live_value self.old.table) session ≡ Some seat
            → IsThere (S.stands sessions.now) seat st
            → MayAdmit (S.meaning sessions.now) st (contents_of batch)
            → OnOk result ((new : Kept T) × IsAdmitted batch.number seat new
            × IsThere (S.stands sessions.now) new (with_batch (contents_of batch) st)
            × IsChanged session self.old.table self.new.table new false) }
        ensures same { OnErr result (IsSame self.old.table self.new.table) }
        ensures back { IfErr result (λ b. b ≡ batch) }
    {
        match self.table.at_mut(session) {
            Some(seat) => seat::admit(alloc, sessions, seat, batch),
            None => Err(batch),
        }
    }

    /// Closes a session that lives and is not busy.
    pub fn close<S: Sessions<Session = T>>(&mut self, session: u32)
        requires sound { IsSound self.old }
        requires rest { IsAtRest self.old }
        ensures sound { IsSound self.new }
        ensures rest { IsAtRest self.new }
        ensures closed { (sessions : S) (limit turn : ℕ) (h : List Recorded) (stages : List Stage)
            (s : Stood)
            → IsRollOf (S.stands sessions) (S.meaning sessions) limit self.old h stages
            → standing_of session h ≡ Some s → close_decision s ≡ Close
            → IsRollOf (S.stands sessions) (S.meaning sessions) limit self.new
            (h ++ closed turn session ∷ []) stages }
    {
        self.close_at(session);
    }

    fn close_at(&mut self, session: u32)
        requires { IsTable self.old.table }
        ensures table { IsTable self.new.table }
        ensures busy { self.new.busy ≡ self.old.busy }
        ensures limit { self.new.limit ≡ self.old.limit }
        ensures closed { (seat : Kept T)
            → at_ordinal (live_value self.old.table) session ≡ Some seat
            → (new : Kept T) × IsClosed seat new
            × IsChanged session self.old.table self.new.table new true }
    {
        if let Some(seat) = self.table.at_mut(session) {
            seat::close(seat);
            self.table.end_at(session);
        }
    }

    /// The busy session that goes on next does so for a slice.
    pub fn advance<S: Sessions<Session = T>, V: Service>(
        &mut self,
        alloc: Global,
        sessions: &S,
        service: &mut V,
        slice: &Slice,
    ) -> Advanced
        requires sound { IsSound self.old }
        requires next { (rest : List ℕ) × (waiting self.old ≡ slice.now.session ∷ rest) }
        requires time { slice.now.time < 2 ^ 53 }
        ensures sound { IsSound self.new }
        ensures waiting { (rest : List ℕ) → waiting self.old ≡ slice.now.session ∷ rest
            → waiting self.new ≡ rest }
        ensures went_on { (limit : ℕ) (h : List Recorded) (stages : List Stage) (meant : Meant)
            → IsRollOf (S.stands sessions.now) (S.meaning sessions.now) limit self.old h stages
            → V.replies_as service.old meant (called_so_far h) → slice.now.units ≡ 1000
            → WentOn (S.meaning sessions.now) meant slice.now.turn slice.now.time slice.now.session
            h stages result
            (IsRollOf (S.stands sessions.now) (S.meaning sessions.now) limit self.new)
            (V.replies_as service.new meant) }
    {
        let advanced = self.advance_at(alloc, sessions, service, slice);
        self.busy.pass(advanced.is_busy());
        advanced
    }

    fn advance_at<S: Sessions<Session = T>, V: Service>(
        &mut self,
        alloc: Global,
        sessions: &S,
        service: &mut V,
        slice: &Slice,
    ) -> Advanced
        requires table { IsTable self.old.table }
        requires time { slice.now.time < 2 ^ 53 }
        ensures table { IsTable self.new.table }
        ensures busy { self.new.busy ≡ self.old.busy }
        ensures limit { self.new.limit ≡ self.old.limit }
        ensures advanced { (st : Stage) (meant : Meant) (calls : List Called) (seat : Kept T)
            → at_ordinal (live_value self.old.table) slice.now.session ≡ Some seat
            → IsThere (S.stands sessions.now) seat st
            → is_done (S.meaning sessions.now) st ≡ false → V.replies_as service.old meant calls
            → (new : Kept T)
            × SliceOf (S.meaning sessions.now) st meant calls slice.now seat new result
            (S.stands sessions.now) (V.replies_as service.new meant)
            × IsChanged slice.now.session self.old.table self.new.table new
            (ends_session result.progress) }
    {
        match self.table.at_mut(slice.session) {
            Some(seat) => {
                let advanced = seat::advance(alloc, sessions, service, slice, seat);
                if advanced.has_ended() {
                    self.table.end_at(slice.session);
                }
                advanced
            }
            None => Advanced::none(alloc),
        }
    }
}
