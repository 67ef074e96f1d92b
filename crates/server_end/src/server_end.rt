// The server's end of a player's connection.
ghost use Rattle.std.specs.Prelude.{◌≡◌, ◌≤◌, [], List, IfOk};
ghost use Rattle.protocol_model.specs.Limits.{budget_limit};
ghost use Rattle.protocol_model.specs.Sight.{Seen as SeenSpec};
ghost use Rattle.connection_model.specs.Feed.{End, Past};
ghost use Rattle.shadow_changes.specs.Samples.{Samples};
ghost use Rattle.sender_steps.specs.Stands.{Stands};
ghost use Rattle.server_end.specs.Ticks.{IsGivenEnd, HasTicked};

use actor_sender::{ActorSender, Sight};
use bit_io::Memory;
use channel_table::ChannelTable;
use class_layout::Classes;
use link_end::{LinkEnd, SentList};
use net_core::Player;
use protocol_model::Version;
use shadow_changes::Shadows;
use std::alloc::Global;

/// What is kept of a player's connection while its end lives. It knows whose it is.
#[derive(Drop)]
pub struct ServerEnd {
    pub player: Player,
    pub sender: ActorSender,
    pub link: LinkEnd,
    pub table: ChannelTable,
}

impl ServerEnd {
    /// The end of a player who joins, with a budget of 1 to 1,000,000 bits a tick.
    pub fn new(
        alloc: Global,
        player: Player,
        budget: u32,
        version: Version,
    ) -> Result<ServerEnd, Memory>
        requires least { 1 ≤ budget }
        requires most { budget ≤ budget_limit }
        ensures player { IfOk result (λ e. e.player ≡ player) }
        ensures count { IfOk result (λ e. e.table.made.count ≡ 0) }
        ensures stands { IfOk result (λ e. (end : End) → end.budget ≡ budget → end.version ≡ version
            → Stands e.sender e.link e.table end [] []) }
    {
        let sender = ActorSender::new(alloc);
        let link = LinkEnd::new(alloc, budget, version)?;
        let table = ChannelTable::new(alloc, true)?;
        Ok(ServerEnd {
            player,
            sender,
            link,
            table,
        })
    }

    /// The end ticks with a sight. After `Memory` the end is of no more use.
    pub fn tick(
        &mut self,
        sight: &Sight,
        changes: &Shadows,
        classes: &Classes,
    ) -> Result<EndTick, Memory>
        requires { (end : End) × (past : Past) × (before : Samples) × (samples : Samples)
            × (shown : List SeenSpec)
            × IsGivenEnd self.old classes.now changes.now sight.now end past before samples shown }
        ensures { IfOk result (λ t. (end : End) (past : Past) (before samples : Samples)
            (shown : List SeenSpec)
            → IsGivenEnd self.old classes.now changes.now sight.now end past before samples shown
            → HasTicked self.old self.new end past samples shown t) }
    {
        let (link, table) = (&mut self.link, &mut self.table);
        let sent = self.sender.tick(sight, changes, link, table, classes)?;
        let stalled = self.link.stalled();
        let top = self.link.top();
        Ok(EndTick { sent, stalled, top })
    }
}

/// What an end's tick sent, whether the end stalled in it, and the greatest number that it took.
#[derive(Drop)]
pub struct EndTick {
    pub sent: SentList,
    pub stalled: bool,
    pub top: u64,
}
