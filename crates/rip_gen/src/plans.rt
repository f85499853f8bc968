ghost use Rattle.std.specs.Prelude.{◌≡◌, IfOk};
ghost use Rattle.rip_gen.specs.Plans.{plan_of};

use crate::draws::Draws;
use crate::gesture::next_gestures;
use rip_base::NoMemory;
use rip_wire::Gesture;
use std::alloc::Global;
use std::marker::Model;

/// How many rounds a plan has.
pub const ROUNDS: u32 = 40;

/// A plan. Contracts see its sessions, its liar and its gestures, round by round.
#[derive(Debug, Drop)]
pub struct GenPlan {
    sessions: u32,
    liar: u32,
    gestures: Vec<Gesture>,
}

impl Model for GenPlan {
    ghost use Rattle.std.specs.Prelude.{◌≡◌, ◌*◌, ◌≤◌, length};
    ghost use Rattle.rip_gen.specs.Plans.{Plan};

    ghost Value = { Plan };

    ghost view = { λ p. record { sessions = p.sessions; liar = p.liar; gestures = p.gestures.items } };

    ghost invariant = { λ p. (length p.gestures.items ≡ 40 * p.sessions) × (p.sessions ≤ 32) };
}

/// The plan of a number.
pub fn plan(alloc: Global, n: u32) -> Result<GenPlan, NoMemory>
    ensures { IfOk result (λ plan. plan ≡ plan_of n) }
{
    let mut draws = Draws::behind(n);
    let sessions = 4 + draws.below(29);
    let liar = 1 + draws.below(sessions);
    Ok(GenPlan {
        sessions,
        liar,
        gestures: next_gestures(alloc, draws, ROUNDS * sessions)?,
    })
}

impl GenPlan {
    ghost use Rattle.std.specs.Prelude.{◌≡◌, ◌≤◌, Some, slice_get};
    ghost use Rattle.rip_gen.specs.Plans.{place_of};

    /// How many sessions there are.
    pub fn sessions(&self) -> u32
        ensures { result ≡ self.now.sessions }
    {
        self.sessions
    }

    /// The session that lies, counted from 1.
    pub fn liar(&self) -> u32
        ensures { result ≡ self.now.liar }
    {
        self.liar
    }

    /// What the user of a session does in a round; both are counted from 1.
    pub fn gesture(&self, round: u32, session: u32) -> &Gesture
        requires first { 1 ≤ round }
        requires last { round ≤ 40 }
        requires from_one { 1 ≤ session }
        requires there { session ≤ self.now.sessions }
        ensures { slice_get self.now.gestures (place_of self.now round session) ≡ Some result.now }
    {
        &self.gestures[((round - 1) * self.sessions + (session - 1)) as usize]
    }
}
