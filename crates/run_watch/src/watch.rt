// How the targets of a run stand.
ghost use Rattle.std.specs.Prelude.{◌≡◌, ◌<◌, ◌==◌, ◌^◌, ℕ, length, position, replicate, slice_get, IfOk, IfSome, OnOk, Some};
ghost use Rattle.std.specs.List.{list_any};
ghost use Rattle.daos_model.specs.Stops.{is_stop_at};
ghost use Rattle.run_watch.specs.Watches.{FailsAgain, first_watch, fuse_set, next_fuse, opened_again, opening_tried, with_life};
ghost use Rattle.world_base.specs.Stops.{is_given_up};
ghost use Rattle.world_base.specs.declared.target.Life.{Life};

use base_types::epoch::TargetId;
use base_types::items::Memory;
use base_types::script::StopDecl;
use std::alloc::{AllocError, Global};
use std::marker::Model;
use world_base::target::Life;

/// In how many of its turns the outside may fail a target that isn't given up.
pub const MOST_FAULTS: u8 = 8;

/// How the targets of a run stand: who runs, is stopped, or was given up; in how many of its turns the
/// outside failed each, up to 8; the stop lines whose fuses are still to be set; how many restarts there
/// were, and how many openings were tried.
#[derive(Drop)]
pub struct Watch {
    lives: Vec<Life>,
    faults: Vec<u8>,
    stops: Vec<StopDecl>,
    restarts: u32,
    openings: u32,
}

impl Model for Watch {
    ghost use Rattle.run_watch.specs.Watches.{WatchNow};
    ghost use Rattle.std.specs.Prelude.{◌≡◌, ◌≤◌, All, length};

    ghost Value = { WatchNow };

    ghost view = { λ w. record { lives = w.lives.items; faults = w.faults.items; stops = w.stops.items; restarts = w.restarts; openings = w.openings } };

    ghost invariant = { λ w. (length w.faults.items ≡ length w.lives.items) × All (λ n. n ≤ 8) w.faults.items × (w.restarts ≤ w.openings) };
}

// So many targets that run.
fn all_running(alloc: Global, targets: u8) -> Result<Vec<Life>, Memory>
    ensures { IfOk result (λ lives. lives.items ≡ replicate targets Life.Running) }
{
    let mut lives = Vec::new(alloc);
    for _ in 0..targets {
        lives.push(Life::Running)?;
    }
    Ok(lives)
}

// The place of a target's first stop line among these.
fn place_of(stops: &[StopDecl], t: TargetId) -> Option<usize>
    ensures first { result ≡ position (is_stop_at t) stops.now }
    ensures within { IfSome result (λ place. place < length stops.now) }
{
    stops.iter().position(|stop| stop.target == t)
}

// Whether a target was given up.
fn is_given_up(life: Life) -> bool
    ensures { result ≡ is_given_up life }
{
    matches!(life, Life::Down)
}

impl Watch {
    /// So many targets run; these stop lines are to come.
    pub fn new(alloc: Global, targets: u8, stops: &[StopDecl]) -> Result<Watch, Memory>
        ensures { IfOk result (λ watch. watch ≡ first_watch targets stops.now) }
    {
        let lives = all_running(alloc, targets)?;
        let faults = vec![in alloc; 0; usize::from(targets)]?;
        let left = Vec::from_slice(alloc, stops)?;
        Ok(Watch {
            lives,
            faults,
            stops: left,
            restarts: 0,
            openings: 0,
        })
    }

    /// How a target stands.
    pub fn life(&self, t: usize) -> Life
        requires within { t < length self.now.lives }
        ensures { slice_get self.now.lives t ≡ Some result }
    {
        self.lives[t]
    }

    /// How all targets stand, in the order of their numbers.
    pub fn lives(&self) -> &[Life]
        ensures { result.now ≡ self.now.lives }
    {
        &self.lives
    }

    /// Whether some target was given up.
    pub fn some_down(&self) -> bool
        ensures { result ≡ list_any (λ life. is_given_up life) self.now.lives }
    {
        self.lives.iter().any(|life| is_given_up(*life))
    }

    /// A target stands so from now on.
    pub fn set(&mut self, t: usize, life: Life)
        requires within { t < length self.old.lives }
        ensures { self.new ≡ with_life t life self.old }
    {
        self.lives[t] = life;
    }

    /// The outside failed a target in a turn: whether this was the ninth time, by which it is given up.
    pub fn fail(&mut self, t: usize) -> bool
        requires within { t < length self.old.lives }
        ensures { FailsAgain t self.old self.new result }
    {
        let faults = self.faults[t];
        if faults == MOST_FAULTS {
            return true;
        }
        self.faults[t] = faults + 1;
        false
    }

    /// The write at which a target's next fuse is to fire, which is then set; 0 where no stop line of its is
    /// left.
    pub fn take_fuse(&mut self, t: TargetId) -> u32
        ensures write { result ≡ next_fuse t self.old.stops }
        ensures left { self.new ≡ fuse_set t self.old }
    {
        match place_of(&self.stops, t) {
            Some(place) => self.stops.remove(place).write,
            None => 0,
        }
    }

    /// One opening more is tried.
    ///
    /// # Errors
    ///
    /// For want of memory, where 2^32 - 1 were tried.
    pub fn try_opening(&mut self) -> Result<(), Memory>
        ensures tried { OnOk result (self.new ≡ opening_tried self.old) }
        ensures few { OnOk result (self.new.openings < 2 ^ 32) }
        ensures below { OnOk result (self.new.restarts < self.new.openings) }
    {
        match self.openings.checked_add(1) {
            Some(openings) => {
                self.openings = openings;
                Ok(())
            }
            None => Err(AllocError),
        }
    }

    /// A target opened again, in an opening that was tried.
    pub fn open(&mut self, t: usize)
        requires within { t < length self.old.lives }
        requires tried { self.old.restarts < self.old.openings }
        ensures { self.new ≡ opened_again t self.old }
    {
        self.lives[t] = Life::Running;
        self.restarts += 1;
    }

    /// The number of the next restart.
    pub fn next_restart(&self) -> u32
        ensures { result ≡ self.now.restarts }
    {
        self.restarts
    }
}
