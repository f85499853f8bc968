ghost use Rattle.std.specs.Prelude.{◌≡◌, ◌≢◌, ◌<◌, ◌≤◌, ◌+◌, ℕ, length, List, [], ◌∷◌, ◌++◌, false, if◌then◌else◌, slice_get, vec_len, vec_capacity, IfSome, IfNone, OnOk};
ghost use Rattle.std.specs.Bool.{OnTrue, OnFalse};
ghost use Rattle.rip_table.specs.Walks.{passed, waiting_in, all_in, among, Rises, IsAdded, IsPlaceFor, IsWalk, IsResting};

use rip_base::NoMemory;
use std::alloc::Global;

/// The ordinals of the busy sessions, in order, and how far a walk over them came: those before `next` were passed, and
/// the first `kept` of the list are those of them that stay.
#[derive(Drop)]
pub struct Busy {
    list: Vec<u32>,
    next: usize,
    kept: usize,
}

impl Busy {
    pub fn make(alloc: Global) -> Busy
        ensures none { all_in result ≡ [] }
        ensures rest { IsResting result }
        ensures walk { IsWalk result }
    {
        Busy {
            list: Vec::new(alloc),
            next: 0,
            kept: 0,
        }
    }

    /// There is none.
    pub fn is_empty(&self) -> bool
        requires { IsResting self.now }
        ensures none { OnTrue result (all_in self.now ≡ []) }
        ensures some { OnFalse result (all_in self.now ≢ []) }
    {
        self.list.is_empty()
    }

    /// The next of the walk.
    pub fn next(&self) -> Option<u32>
        ensures some { IfSome result (λ n. (rest : List ℕ) × (waiting_in self.now ≡ n ∷ rest)) }
        ensures none { IfNone result (waiting_in self.now ≡ []) }
    {
        item_at(self.list.as_slice(), self.next)
    }

    /// Passes the next of the walk, which stays among the busy ones or not.
    pub fn pass(&mut self, stays: bool)
        requires walk { IsWalk self.old }
        requires next { self.old.next < vec_len self.old.list }
        ensures walk { IsWalk self.new }
        ensures waiting { (n : ℕ) (rest : List ℕ) → waiting_in self.old ≡ n ∷ rest
            → waiting_in self.new ≡ rest }
        ensures passed { (n : ℕ) (rest : List ℕ) → waiting_in self.old ≡ n ∷ rest
            → passed self.new ≡ (if stays then passed self.old ++ n ∷ [] else passed self.old) }
    {
        if stays {
            self.list[self.kept] = self.list[self.next];
            self.kept += 1;
        }
        self.next += 1;
    }

    /// Ends the walk.
    pub fn rewind(&mut self)
        requires walk { IsWalk self.old }
        requires over { waiting_in self.old ≡ [] }
        ensures walk { IsWalk self.new }
        ensures rest { IsResting self.new }
        ensures same { all_in self.new ≡ all_in self.old }
    {
        self.list.truncate(self.kept);
        self.next = 0;
        self.kept = 0;
    }

    /// Takes room for one more.
    pub fn reserve(&mut self) -> Result<(), NoMemory>
        ensures items { self.new.list.items ≡ self.old.list.items }
        ensures next { self.new.next ≡ self.old.next }
        ensures kept { self.new.kept ≡ self.old.kept }
        ensures room { OnOk result (vec_len self.new.list < vec_capacity self.new.list) }
    {
        self.list.reserve(1)?;
        Ok(())
    }

    /// Adds one for which there is room, in its place.
    pub fn add(&mut self, session: u32)
        requires rest { IsResting self.old }
        requires room { vec_len self.old.list < vec_capacity self.old.list }
        ensures walk { IsWalk self.new }
        ensures rest { IsResting self.new }
        ensures added { Rises 0 (all_in self.old) → among session (all_in self.old) ≡ false
            → 0 < session → IsAdded session (all_in self.old) (all_in self.new) }
    {
        let place = place_for(self.list.as_slice(), session);
        self.list.insert(place, session).unwrap();
    }
}

/// What stands at a place, if it is within the list.
fn item_at(list: &[u32], place: usize) -> Option<u32>
    ensures { result ≡ slice_get list.now place }
{
    list.get(place).copied()
}

/// The place at which a number that is not among rising ones is put.
fn place_for(list: &[u32], session: u32) -> usize
    ensures within { result ≤ length list.now }
    ensures place { Rises 0 list.now → among session list.now ≡ false
        → IsPlaceFor session list.now result }
{
    match list.binary_search(&session) {
        Ok(place) => place,
        Err(place) => place,
    }
}
