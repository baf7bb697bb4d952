// What is lost when a target stops or is given up, and who is told of it. A run in which targets stop calls it.
ghost use Rattle.std.specs.Prelude.{◌≡◌, ◌≤◌, ◌++◌, IfOk, OnErr, OnOk, filter, true, vec_capacity, vec_len};
ghost use Rattle.world_base.specs.Stops.{is_not_to, is_to, reset_letter, resets};

use base_messages::boxed::Boxed;
use base_messages::message::Message;
use base_types::epoch::TargetId;
use base_types::items::{Memory, TryCopy};
use std::alloc::Global;
use world_base::letter::Letter;

// Whether a letter goes to a target.
fn goes_to(letter: &Letter, target: TargetId) -> bool
    ensures { result ≡ is_to target letter.now }
{
    !letter.to.client && letter.to.number == u16::from(target)
}

// What goes to a target is taken out.
fn take_out(letters: &mut Vec<Letter>, target: TargetId)
    ensures left { letters.new.items ≡ filter (is_not_to target) letters.old.items }
    ensures fewer { vec_len letters.new ≤ vec_len letters.old }
    ensures capacity { vec_capacity letters.new ≡ vec_capacity letters.old }
{
    letters.retain(|letter| !goes_to(letter, target));
}

// Who sent a letter to a target is told that it got no answer.
pub(crate) fn reset_of(
    alloc: Global,
    letter: &Letter,
    target: TargetId,
    down: bool,
) -> Result<Letter, Memory>
    requires to_it { is_to target letter.now ≡ true }
    ensures { IfOk result (λ reset. reset ≡ reset_letter down letter.now) }
{
    let message = letter.message.copy()?;
    Ok(Letter {
        from: letter.to,
        to: letter.from,
        message: Message::Reset {
            target,
            down,
            message: Boxed::new(alloc, message)?,
        },
    })
}

// Who sent one of these to a target is told so, in their order.
fn resets(
    alloc: Global,
    asked: &[Letter],
    target: TargetId,
    down: bool,
) -> Result<Vec<Letter>, Memory>
    ensures { IfOk result (λ told. told.items ≡ resets target down asked.now) }
{
    let mut told = Vec::new(alloc);
    for letter in asked {
        if goes_to(letter, target) {
            told.push(reset_of(alloc, letter, target, down)?)?;
        }
    }
    Ok(told)
}

/// What is in flight to a target is lost, since it stopped or, where `down` is set, was given up; and
/// for each message to it that is without an answer its sender is told so, in the order of sending.
///
/// # Errors
///
/// For want of memory; what is in flight and what is without an answer are then as they were.
pub(crate) fn lose(
    alloc: Global,
    messages: &mut Vec<Letter>,
    asked: &mut Vec<Letter>,
    target: TargetId,
    down: bool,
) -> Result<(), Memory>
    ensures messages { OnOk result (messages.new.items ≡ filter (is_not_to target) messages.old.items ++ resets target down asked.old.items) }
    ensures asked { OnOk result (asked.new.items ≡ filter (is_not_to target) asked.old.items) }
    ensures kept { OnErr result (messages.new.items ≡ messages.old.items) }
    ensures kept_asked { OnErr result (asked.new.items ≡ asked.old.items) }
{
    let mut told = resets(alloc, asked, target, down)?;
    messages.reserve(told.len())?;
    take_out(messages, target);
    take_out(asked, target);
    messages.append(&mut told).unwrap();
    Ok(())
}
