// Payloads that were read are applied to the copies.
ghost use Rattle.std.specs.Prelude.{◌≡◌, ◌<◌, ℕ, length, None, Some, if◌then◌else◌, IfOk, OnOk, OnErr};
ghost use Rattle.protocol_model.specs.Payload.{Closes, Gone};
ghost use Rattle.class_layout.specs.Tables.{Layout};
ghost use Rattle.actor_copies.specs.declared.copy.ActorCopy.{ActorCopy as ActorCopyValue};
ghost use Rattle.actor_copies.specs.Applied.{IsNew, WasOpened, WasHanded, Follow, update_message};
ghost use Rattle.actor_copies.specs.Kept.{kept_of, kept_on, ArePlaced};

use crate::copies::CopyList;
use crate::copy::{ActorCopy, ReadOpen};
use crate::values::{initial, set_list};
use bit_io::Memory;
use class_layout::{Classes, PairList};
use net_core::Guid;
use payload_reading::class_at;
use std::alloc::Global;

impl CopyList {
    /// Applies an open that was read from a channel that no copy holds: its actor's copy, kept or
    /// new, is on the channel and has its values. `Memory` changes nothing.
    pub fn open(&mut self, classes: &Classes, channel: u16, read: ReadOpen) -> Result<(), Memory>
        requires class { read.class < length classes.now.classes }
        requires free { kept_on self.old channel ≡ None }
        ensures follows { OnOk result (ArePlaced (length classes.now.classes) self.old
            → Follow classes.now self.old self.new (WasOpened classes.now channel read)) }
        ensures placed { OnOk result (ArePlaced (length classes.now.classes) self.old
            → ArePlaced (length classes.now.classes) self.new) }
        ensures err { OnErr result (self.new ≡ self.old) }
    {
        classes.keeps_rules();
        if self.contains(read.actor) {
            self.wake(read.actor, channel, read.values.as_slice())?;
            return Ok(());
        }
        let copy = new_copy(self.alloc, classes, channel, read)?;
        self.put(copy, channel)?;
        Ok(())
    }

    /// Applies values that were read from a channel to the copy that holds it.
    pub fn update(&mut self, channel: u16, values: &PairList)
        ensures follows { (layout : Layout) (x : ActorCopyValue)
            → kept_on self.old channel ≡ Some x
            → Follow layout self.old self.new (WasHanded (update_message layout x values.now)) }
        ensures placed { (classes : ℕ) → ArePlaced classes self.old → ArePlaced classes self.new }
        ensures none { kept_on self.old channel ≡ None → self.new ≡ self.old }
    {
        self.set_on(channel, values.as_slice());
    }

    /// Applies a close of a channel: the copy that holds it sleeps without one, or is removed.
    pub fn close(&mut self, channel: u16, sleeps: bool)
        ensures follows { (layout : Layout) (x : ActorCopyValue)
            → kept_on self.old channel ≡ Some x
            → Follow layout self.old self.new (WasHanded (Closes x.actor sleeps)) }
        ensures placed { (classes : ℕ) → ArePlaced classes self.old → ArePlaced classes self.new }
        ensures none { kept_on self.old channel ≡ None → self.new ≡ self.old }
    {
        if sleeps {
            self.sleep_on(channel);
        } else {
            self.remove_on(channel);
        }
    }

    /// Applies a Gone of an actor, whose copy is removed.
    pub fn remove(&mut self, actor: Guid)
        ensures follows { (layout : Layout)
            → Follow layout self.old self.new (WasHanded (Gone actor)) }
        ensures placed { (classes : ℕ) → ArePlaced classes self.old → ArePlaced classes self.new }
    {
        self.remove_of(actor);
    }
}

/// The copy that an open begins.
fn new_copy(
    alloc: Global,
    classes: &Classes,
    channel: u16,
    read: ReadOpen,
) -> Result<ActorCopy, Memory>
    requires { read.class < length classes.now.classes }
    ensures { IfOk result (λ c. IsNew classes.now channel read c) }
{
    let mut values = initial(alloc, class_at(classes, read.class))?;
    set_list(alloc, &mut values, read.values.as_slice());
    Ok(ActorCopy {
        actor: read.actor,
        class: read.class,
        channel: Some(channel),
        values,
    })
}
