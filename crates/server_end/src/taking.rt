// Datagrams that come from a player.
ghost use Rattle.std.specs.Prelude.{IfOk};
ghost use Rattle.protocol_model.specs.World.{Edits};
ghost use Rattle.connection_model.specs.Feed.{End, Past};
ghost use Rattle.shadow_changes.specs.Samples.{Samples};
ghost use Rattle.server_end.specs.Hearing.{MayHearEnd, IsHeard};

use crate::server_end::ServerEnd;
use bit_io::Memory;
use server_hearing::{Heard, take};
use std::alloc::Global;
use world_table::World;

impl ServerEnd {
    /// Takes a datagram, at an end that is alive. After `Memory` the end is of no more use.
    pub fn take(&mut self, alloc: Global, world: &World<'_>, bytes: &[u8]) -> Result<Heard, Memory>
        requires { (end : End) × (edits : Edits) × (past : Past) × (samples : Samples)
            × MayHearEnd world.now self.old end edits past samples }
        ensures heard { IfOk result (λ h. (end : End) (edits : Edits) (past : Past)
            (samples : Samples) → MayHearEnd world.now self.old end edits past samples
            → IsHeard world.now.layout edits end past samples bytes.now self.old self.new h) }
    {
        let player = self.player;
        let (link, table, sender) = (&mut self.link, &mut self.table, &mut self.sender);
        let heard = take(alloc, world, player, link, table, sender, bytes)?;
        Ok(heard)
    }
}
