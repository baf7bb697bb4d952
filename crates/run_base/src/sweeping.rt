// What goes to targets that are given up. A run in which targets stop calls it.
ghost use Rattle.std.specs.Prelude.{◌≡◌, ◌≤◌, ◌++◌, IfErr, IfOk, OnOk, filter, length, map, true};
ghost use Rattle.run_base.specs.Sweeps.{LivesTellDowns, NoneIsSwept, SweepingIsDone, SweepsAreOfLives, is_down_in, is_left_by, is_lost_by};
ghost use Rattle.world_base.specs.Stops.{reset_letter};

use crate::between::Between;
use crate::losing::reset_of;
use base_types::items::Memory;
use std::alloc::Global;
use world_base::letter::Letter;
use world_base::target::Life;

// Whether the target of a number is given up.
fn is_down_in(lives: &[Life], number: u16) -> bool
    ensures { result ≡ is_down_in lives.now number }
{
    match lives.get(usize::from(number)) {
        Some(life) => matches!(life, Life::Down),
        None => false,
    }
}

// Whether a letter goes to a target that is given up.
fn is_lost_by(lives: &[Life], letter: &Letter) -> bool
    ensures { result ≡ is_lost_by lives.now letter.now }
{
    !letter.to.client && is_down_in(lives, letter.to.number)
}

// What goes to such targets is taken out.
fn take_out(letters: &mut Vec<Letter>, lives: &[Life])
    ensures { letters.new.items ≡ filter (is_left_by lives.now) letters.old.items }
{
    letters.retain(|letter| !is_lost_by(lives, letter));
}

// Who sent a letter to such a target is told that it got no answer.
fn reset_by(alloc: Global, letter: &Letter, lives: &[Life]) -> Result<Letter, Memory>
    requires few { length lives.now ≤ 256 }
    requires lost { is_lost_by lives.now letter.now ≡ true }
    ensures { IfOk result (λ reset. reset ≡ reset_letter true letter.now) }
{
    let target = letter.to.number as u8;
    reset_of(alloc, letter, target, true)
}

// Who sent one of these to such a target is told so, in their order.
fn resets_by(alloc: Global, asked: &[Letter], lives: &[Life]) -> Result<Vec<Letter>, Memory>
    requires few { length lives.now ≤ 256 }
    ensures { IfOk result (λ told. told.items ≡ map (reset_letter true) (filter (is_lost_by lives.now) asked.now)) }
{
    let mut told = Vec::new(alloc);
    for letter in asked {
        if is_lost_by(lives, letter) {
            told.push(reset_by(alloc, letter, lives)?)?;
        }
    }
    Ok(told)
}

impl Between {
    /// What goes to targets that are given up is lost, and who waits for their answers is told so, in the
    /// order in which they asked; one who is given up itself isn't told.
    ///
    /// # Errors
    ///
    /// For want of memory; nothing is changed then.
    pub(crate) fn sweep(&mut self, alloc: Global, lives: &[Life]) -> Result<(), Memory>
        requires few { length lives.now ≤ 256 }
        ensures messages { OnOk result (self.new.messages ≡ filter (is_left_by lives.now) (self.old.messages ++ map (reset_letter true) (filter (is_lost_by lives.now) self.old.asked))) }
        ensures asked { OnOk result (self.new.asked ≡ filter (is_left_by lives.now) self.old.asked) }
        ensures issued { self.new.issued ≡ self.old.issued }
        ensures lines { self.new.lines ≡ self.old.lines }
        ensures kept { IfErr result (λ no. self.new ≡ self.old) }
    {
        let mut told = resets_by(alloc, &self.asked, lives)?;
        self.messages.append(&mut told)?;
        take_out(&mut self.messages, lives);
        take_out(&mut self.asked, lives);
        Ok(())
    }
}

/// Says that what is left between actors, where targets are given up, is what a run's event leaves of it, for
/// the targets of a world that stand so. Where none is given up, nothing is lost, and what was lost once
/// isn't lost again.
pub fn laws_of_sweeps()
    ensures downs { LivesTellDowns }
    ensures lives { SweepsAreOfLives }
    ensures none { NoneIsSwept }
    ensures done { SweepingIsDone }
{}
