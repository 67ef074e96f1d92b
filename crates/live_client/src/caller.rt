// A client's turns, call by call.
ghost use Rattle.std.specs.Prelude.{◌≡◌, ℕ, List, is_some, OnOk, IfOk};
ghost use Rattle.class_layout.specs.Tables.{Layout, table_in};
ghost use Rattle.live_model.specs.Outside.{same_peer, Heard, Datagram};
ghost use Rattle.live_model.specs.Caller.{Caller as CallerModel, after_answer, after_datagram, after_tick, asks};
ghost use Rattle.live_model.specs.Runs.{first_caller};
ghost use Rattle.live_acts.specs.Acts.{AddsActs};
ghost use Rattle.live_client.specs.Callers.{IsCaller, Stands, Does, hears, last_acts};

use class_layout::Classes;
use client_world::Client;
use handshakes::{ends_in_zero, hello, is_welcome, read_failure};
use live_acts::{Act, ActList, same_peer};
use live_links::Peer;
use live_telling::{Side, Teller, tell, tell_got, tell_refused, tell_tick};
use net_core::{Memory, Player};
use protocol_model::Version;
use replay_places::tell_copies;
use script_lines::EventList;
use std::alloc::Global;
use std::marker::Model;

/// A client: its end of the connection and its copies, its server, the end of the link that it has,
/// and whether it was welcomed or refused.
///
/// After `Memory` no call but `refused` and `welcomed` may be made.
#[derive(Drop)]
pub struct Caller<'a> {
    alloc: Global,
    classes: &'a Classes,
    client: Client<'a>,
    player: Player,
    version: Version,
    server: Peer,
    end: usize,
    digest: [u8; 20],
    welcomed: bool,
    refused: Option<u8>,
}

impl<'a> Model for Caller<'a> {
    ghost use Rattle.live_client.specs.Callers.{Calling};

    ghost Value = { Calling };

    ghost view = { λ c. record {
      layout = c.classes.now;
      client = c.client;
      player = c.player;
      version = c.version;
      server = c.server;
      end = c.end;
      digest = c.digest;
      welcomed = c.welcomed;
      refused = c.refused;
    } };
}

impl<'a> Caller<'a> {
    /// A client before its first turn: it asks to join as this player, over classes of this digest,
    /// by an end of the link, from 0.
    pub fn new(
        alloc: Global,
        classes: &'a Classes,
        digest: [u8; 20],
        version: Version,
        server: Peer,
        end: usize,
        player: Player,
    ) -> Result<Caller<'a>, Memory>
        ensures first { IfOk result (λ k. (heard : List Heard)
            → IsCaller classes.now digest k (first_caller version server end player heard)) }
        ensures stands { IfOk result (λ k. Stands k) }
    {
        let client = Client::new(alloc, classes, version)?;
        Ok(Caller {
            alloc,
            classes,
            client,
            player,
            version,
            server,
            end,
            digest,
            welcomed: false,
            refused: None,
        })
    }

    /// Its end of the link, from 0.
    pub fn end(&self) -> usize
        ensures { result ≡ self.now.end }
    {
        self.end
    }

    /// The last datagram that it heard before any Welcome was a Failure of its server: the run ends.
    pub fn refused(&self) -> bool
        ensures { (layout : Layout) (digest : List ℕ) (c : CallerModel)
            → IsCaller layout digest self.now c → result ≡ is_some c.refused }
    {
        self.refused.is_some()
    }

    /// Its server sent a Welcome of its player.
    pub fn welcomed(&self) -> bool
        ensures { (layout : Layout) (digest : List ℕ) (c : CallerModel)
            → IsCaller layout digest self.now c → result ≡ c.welcomed }
    {
        self.welcomed
    }

    /// Sends a Hello, unless it was welcomed.
    pub fn ask(&self, acts: &mut ActList) -> Result<(), Memory>
        ensures { OnOk result ((layout : Layout) (digest : List ℕ) (c : CallerModel)
            → IsCaller layout digest self.now c
            → AddsActs acts.old acts.new (asks digest c)) }
    {
        if self.welcomed {
            return Ok(());
        }
        let Player(player) = self.player;
        let bytes = hello(self.alloc, self.version, player, &self.digest)?;
        acts.push(Act::Sends {
            end: self.end,
            to: self.server,
            bytes,
        })
    }

    /// Hears a datagram. Before a Welcome it looks for an answer of the server alone; from then on
    /// what the server sends is its connection's, but for datagrams that end in 0.
    pub fn hear(&mut self, from: Peer, bytes: &[u8], acts: &mut ActList) -> Result<(), Memory>
        requires there { Stands self.old }
        ensures does { OnOk result (Does (hears from bytes.now)
            self.old self.new acts.old acts.new) }
        ensures stands { OnOk result (Stands self.new) }
    {
        if self.welcomed {
            return self.take(from, bytes, acts);
        }
        self.answer(from, bytes);
        Ok(())
    }

    /// The peer is its server.
    fn is_server(&self, from: Peer) -> bool
        ensures { result ≡ same_peer from self.now.server }
    {
        same_peer(from, self.server)
    }

    /// Looks for an answer to its Hello.
    fn answer(&mut self, from: Peer, bytes: &[u8])
        ensures { (layout : Layout) (digest : List ℕ) (c : CallerModel)
            → IsCaller layout digest self.old c
            → IsCaller layout digest self.new (after_answer c (Datagram from bytes.now)).0 }
    {
        if !self.is_server(from) {
            self.refused = None;
            return;
        }
        let Player(player) = self.player;
        if is_welcome(self.version, player, bytes) {
            self.welcomed = true;
            return;
        }
        self.refused = read_failure(self.version, bytes);
    }

    /// A datagram of its connection: the calls that it hands over, and then the verdict.
    fn take(&mut self, from: Peer, bytes: &[u8], acts: &mut ActList) -> Result<(), Memory>
        requires there { Stands self.old }
        ensures { OnOk result (Does (λ table c. after_datagram table from bytes.now c)
            self.old self.new acts.old acts.new) }
    {
        if !self.is_server(from) {
            return Ok(());
        }
        if ends_in_zero(bytes) {
            return Ok(());
        }
        let mut events = EventList::new(self.alloc);
        let verdict = replay_places::hear(&mut self.client, self.player, bytes, &mut events)?;
        tell(self.alloc, self.classes, &events, acts)?;
        tell_got(self.alloc, self.player, verdict, acts)
    }

    /// Ticks, where it was welcomed: each packet that it sends, and then its line, and whether its
    /// end stalls.
    pub fn tick(&mut self, acts: &mut ActList) -> Result<(), Memory>
        requires there { Stands self.old }
        ensures does { OnOk result (Does after_tick self.old self.new acts.old acts.new) }
        ensures stands { OnOk result (Stands self.new) }
    {
        if !self.welcomed {
            return Ok(());
        }
        let teller = Teller {
            side: Side::Client,
            player: self.player,
            end: self.end,
            to: self.server,
        };
        let ticked = self.client.tick()?;
        tell_tick(
            self.alloc,
            self.classes,
            teller,
            ticked.sent,
            ticked.stalled,
            acts,
        )
    }

    /// Its last lines: its copies where it was welcomed, and else that it wasn't, with the code of
    /// the Failure, 0 for none.
    pub fn tell_end(&self, acts: &mut ActList) -> Result<(), Memory>
        ensures { OnOk result ((layout : Layout) (digest : List ℕ) (c : CallerModel)
            → IsCaller layout digest self.now c
            → AddsActs acts.old acts.new (last_acts (table_in layout) c)) }
    {
        if !self.welcomed {
            return tell_refused(self.alloc, self.refused.unwrap_or(0), acts);
        }
        let mut events = EventList::new(self.alloc);
        tell_copies(self.alloc, &self.client, self.player, &mut events)?;
        tell(self.alloc, self.classes, &events, acts)
    }
}
