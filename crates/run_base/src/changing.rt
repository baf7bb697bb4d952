// What follows from a turn, from a cut, or where a target is given up, and with it what goes to targets that are given up: all of it comes
// about, or nothing.
ghost use Rattle.std.specs.Prelude.{◌≡◌, ◌≤◌, length, take, IfErr, IfOk, OnOk};
ghost use Rattle.run_base.specs.Changes.{cut_between, followed, given_up_between, swept_between};

use crate::between::Between;
use base_messages::actor::ActorId;
use base_types::epoch::{Epoch, TargetId};
use base_types::id::AttemptId;
use base_types::items::{Memory, TryCopy};
use base_types::report::Lines;
use std::alloc::Global;
use world_base::did::Did;
use world_base::letter::Letter;
use world_base::target::Life;

// What is put back where memory is wanting: the letters in flight and those without an answer, and how many epochs and lines there were.
#[derive(Drop)]
struct Kept {
    messages: Vec<Letter>,
    asked: Vec<Letter>,
    issued: usize,
    lines: usize,
}

// These letters again.
fn copied(alloc: Global, letters: &[Letter]) -> Result<Vec<Letter>, Memory>
    ensures { IfOk result (λ copy. copy.items ≡ letters.now) }
{
    let mut copy = Vec::with_capacity(alloc, letters.len())?;
    for letter in letters {
        copy.push(letter.copy()?)?;
    }
    Ok(copy)
}

impl Between {
    // What may have to be put back.
    fn keep(&self, alloc: Global) -> Result<Kept, Memory>
        ensures messages { IfOk result (λ kept. kept.messages.items ≡ self.now.messages) }
        ensures asked { IfOk result (λ kept. kept.asked.items ≡ self.now.asked) }
        ensures issued { IfOk result (λ kept. kept.issued ≡ length self.now.issued) }
        ensures lines { IfOk result (λ kept. kept.lines ≡ length self.now.lines) }
    {
        Ok(Kept {
            messages: copied(alloc, &self.messages)?,
            asked: copied(alloc, &self.asked)?,
            issued: self.issued.len(),
            lines: self.lines.len(),
        })
    }

    // It is put back. Epochs and lines were only added.
    fn put_back(&mut self, kept: Kept)
        ensures messages { self.new.messages ≡ kept.messages.items }
        ensures asked { self.new.asked ≡ kept.asked.items }
        ensures issued { self.new.issued ≡ take kept.issued self.old.issued }
        ensures lines { self.new.lines ≡ take kept.lines self.old.lines }
    {
        let Kept {
            messages,
            asked,
            issued,
            lines,
        } = kept;
        self.messages = messages;
        self.asked = asked;
        self.issued.truncate(issued);
        self.lines.truncate(lines);
    }

    // What goes to targets that are given up is lost; where memory is wanting for that, what was kept is put back.
    fn sweep_or(&mut self, alloc: Global, lives: &[Life], kept: Kept) -> Result<(), Memory>
        requires few { length lives.now ≤ 256 }
        ensures swept { OnOk result (self.new ≡ swept_between lives.now self.old) }
        ensures messages { IfErr result (λ no. self.new.messages ≡ kept.messages.items) }
        ensures asked { IfErr result (λ no. self.new.asked ≡ kept.asked.items) }
        ensures issued { IfErr result (λ no. self.new.issued ≡ take kept.issued self.old.issued) }
        ensures lines { IfErr result (λ no. self.new.lines ≡ take kept.lines self.old.lines) }
    {
        if let Err(no) = self.sweep(alloc, lives) {
            self.put_back(kept);
            return Err(no);
        }
        Ok(())
    }

    /// What follows from an actor's turn comes about, and what goes to targets that are given up is lost.
    ///
    /// # Errors
    ///
    /// For want of memory; nothing is changed then.
    pub fn follow_swept(
        &mut self,
        alloc: Global,
        lives: &[Life],
        from: ActorId,
        did: Did,
    ) -> Result<(), Memory>
        requires few { length lives.now ≤ 256 }
        ensures followed { OnOk result (self.new ≡ swept_between lives.now (followed from did self.old)) }
        ensures kept { IfErr result (λ no. self.new ≡ self.old) }
    {
        let kept = self.keep(alloc)?;
        self.follow(from, did)?;
        self.sweep_or(alloc, lives, kept)
    }

    /// A target's turn was cut, which issued this epoch and told these lines, and what goes to targets that are
    /// given up is lost.
    ///
    /// # Errors
    ///
    /// For want of memory; nothing is changed then.
    pub fn cut_swept(
        &mut self,
        alloc: Global,
        lives: &[Life],
        target: TargetId,
        issued: Option<(AttemptId, Epoch)>,
        lines: Lines,
    ) -> Result<(), Memory>
        requires few { length lives.now ≤ 256 }
        ensures cut { OnOk result (self.new ≡ swept_between lives.now (cut_between target issued lines self.old)) }
        ensures kept { IfErr result (λ no. self.new ≡ self.old) }
    {
        let kept = self.keep(alloc)?;
        self.cut(alloc, target, issued, lines)?;
        self.sweep_or(alloc, lives, kept)
    }

    /// A target is given up, and a line tells so; and what goes to targets that are given up is lost.
    ///
    /// # Errors
    ///
    /// For want of memory; nothing is changed then.
    pub fn give_up_swept(
        &mut self,
        alloc: Global,
        lives: &[Life],
        target: TargetId,
    ) -> Result<(), Memory>
        requires few { length lives.now ≤ 256 }
        ensures given_up { OnOk result (self.new ≡ swept_between lives.now (given_up_between target self.old)) }
        ensures kept { IfErr result (λ no. self.new ≡ self.old) }
    {
        let kept = self.keep(alloc)?;
        self.give_up(alloc, target)?;
        self.sweep_or(alloc, lives, kept)
    }
}
