// The definitions of one end of a connection: what it heard, and what it did, as one list that
// forgets nothing. What a packet, an answer or a verdict must be is said by them; code keeps less
// than the list, and its contracts say that it answers as the list would.
//
//     feed: ticks with sights, datagrams, calls
//       |
//       | past_of                     answer_of    what a call is answered
//       v                           / verdict_of   what a datagram is answered
//     past: deeds, newest first --- - out_of       the packets that were sent
//                                   \ is_settled   whether an actor has nothing left to send
//
// It has definitions, laws about them and no code. It stands on `protocol_model`, which says what
// a packet, a payload, a class, a world and a sight are.
//
// It promises that an end that was never ticked has sent nothing and that an end that has ended
// stays as it is, and `proofs/` computes the pasts and packets of worked feeds. It does not say how
// datagrams travel: both ends together are `replication_model`.
//
// A value that stands for an end cites it so, with a relation `Keeps` of its own:
//
//     pub fn tick(&mut self, sight: &[Seen]) -> Result<Packets, Memory>
//         ensures keeps {
//             (feed : List Event) → Keeps self.old feed
//             → OnOk result (Keeps self.new (Tick sight ∷ feed))
//         }
//         ensures packets {
//             (feed : List Event) → Keeps self.old feed
//             → OnOk result (λ packets. out_of end (Tick sight ∷ feed) ≡ out_of end feed ++ packets)
//         }
#![tactic(auto)]

ghost use Rattle.std.specs.Prelude.{◌≡◌, [], ◌∷◌, ℕ, List, true};
ghost use Rattle.connection_model.specs.Feed.{End, Event, Past, has_ended};
ghost use Rattle.connection_model.specs.Past.{past_of, out_of, after_event};
ghost use Rattle.connection_model.specs.Fates.{last_sent, high_of};

/// Before anything happened an end has sent nothing, and knows of no packet.
pub fn before_all()
    ensures sent { (end : End) → out_of end [] ≡ [] }
    ensures number { last_sent [] ≡ 0 }
    ensures high { high_of [] ≡ 0 }
{}

/// Nothing is added to the past of an end that has ended.
pub fn ended_stays()
    ensures { (end : End) (past : Past) (event : Event)
        → has_ended past ≡ true
        → after_event end past event ≡ past }
{}
