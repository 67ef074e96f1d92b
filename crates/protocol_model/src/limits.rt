// The limits of the protocol as code has them, each tied by a contract to its definition in
// `specs/Limits.antt`.
ghost use Rattle.std.specs.Prelude.{◌≡◌};
ghost use Rattle.protocol_model.specs.Limits.{packet_bytes, packet_modulus, channels_one, channels_two, sequence_modulus, bunch_bits_limit, head_words, unresolved_limit, owed_limit, span_limit, span_sum_limit, held_limit, waiting_limit, late_distance, part_bits, part_limit, payload_bits, update_bits, spawn_limit, copy_limit, name_limit, player_limit, team_limit, connection_limit, budget_limit, class_limit, handle_limit, call_limit, depth_limit, segment_limit, name_bytes, argument_limit, unreliable_call_bits, reliable_call_bits, cull_limit, priority_limit, table_bytes, script_bytes, line_bytes};

/// Most bytes of a packet.
pub const PACKET_BYTES: usize = 1024;

/// Packet numbers are told modulo this.
pub const PACKET_MODULUS: u32 = 16_384;

/// Channel indexes of version one are below this.
pub const CHANNELS_ONE: u32 = 10_240;

/// Channel indexes of version two are below this.
pub const CHANNELS_TWO: u32 = 32_768;

/// Bunch numbers of a channel are told modulo this.
pub const SEQUENCE_MODULUS: u32 = 1024;

/// A bunch has fewer bits of payload than this.
pub const BUNCH_BITS_LIMIT: u32 = 8192;

/// Most words of 32 packets in a head of version two.
pub const HEAD_WORDS: usize = 8;

/// Most packets sent of which nothing is known.
pub const UNRESOLVED_LIMIT: u64 = 4096;

/// Most acknowledgements that an end owes.
pub const OWED_LIMIT: usize = 512;

/// Most bunch numbers of a channel from the least that hasn't arrived.
pub const SPAN_LIMIT: usize = 256;

/// Most such numbers of all channels of a connection.
pub const SPAN_SUM_LIMIT: usize = 512;

/// Most bunches that an end holds behind gaps.
pub const HELD_LIMIT: usize = 512;

/// Most unreliable calls that wait for a tick.
pub const WAITING_LIMIT: usize = 256;

/// A packet that is further below the newest taken is late.
pub const LATE_DISTANCE: u64 = 8192;

/// Bits of each part of a payload but the last.
pub const PART_BITS: usize = 7000;

/// Most parts of a payload.
pub const PART_LIMIT: usize = 10;

/// Most bits of a payload.
pub const PAYLOAD_BITS: usize = 70_000;

/// Most bits of an update.
pub const UPDATE_BITS: usize = 6000;

/// Most spawns of a world.
pub const SPAWN_LIMIT: usize = 8192;

/// Most copies of a client.
pub const COPY_LIMIT: usize = 8192;

/// Most names that a client learns.
pub const NAME_LIMIT: usize = 65_536;

/// Players have numbers from 1 to this.
pub const PLAYER_LIMIT: u16 = 1000;

/// Teams have numbers from 1 to this.
pub const TEAM_LIMIT: u8 = 64;

/// Most connections of a server.
pub const CONNECTION_LIMIT: usize = 64;

/// Most bits that a tick may be given.
pub const BUDGET_LIMIT: u32 = 1_000_000;

/// Most classes of a table.
pub const CLASS_LIMIT: usize = 256;

/// Most handles of a class, with those of x, y and the role.
pub const HANDLE_LIMIT: usize = 200;

/// Most calls of a class.
pub const CALL_LIMIT: usize = 64;

/// Most segments of a class's path.
pub const DEPTH_LIMIT: usize = 8;

/// Most segments of a table's paths.
pub const SEGMENT_LIMIT: usize = 1024;

/// Most bytes of a name.
pub const NAME_BYTES: usize = 31;

/// Most arguments of a call.
pub const ARGUMENT_LIMIT: usize = 16;

/// Most bits of the arguments of an unreliable call.
pub const UNRELIABLE_CALL_BITS: u32 = 6900;

/// Most bits of the arguments of a reliable call.
pub const RELIABLE_CALL_BITS: u32 = 60_000;

/// Greatest cull distance.
pub const CULL_LIMIT: u32 = 50_000;

/// Greatest priority.
pub const PRIORITY_LIMIT: u8 = 255;

/// Most bytes of a class table's file.
pub const TABLE_BYTES: usize = 1_000_000;

/// Most bytes of a script's file.
pub const SCRIPT_BYTES: usize = 67_108_864;

/// Most bytes of a script's line.
pub const LINE_BYTES: usize = 16_384;

/// The constants of packets are the limits of the definitions.
pub fn limits_of_packets()
    ensures packet_bytes { PACKET_BYTES ≡ packet_bytes }
    ensures packet_modulus { PACKET_MODULUS ≡ packet_modulus }
    ensures channels_one { CHANNELS_ONE ≡ channels_one }
    ensures channels_two { CHANNELS_TWO ≡ channels_two }
    ensures sequence_modulus { SEQUENCE_MODULUS ≡ sequence_modulus }
    ensures bunch_bits_limit { BUNCH_BITS_LIMIT ≡ bunch_bits_limit }
    ensures head_words { HEAD_WORDS ≡ head_words }
{}

/// So are those of a connection.
pub fn limits_of_connections()
    ensures unresolved_limit { UNRESOLVED_LIMIT ≡ unresolved_limit }
    ensures owed_limit { OWED_LIMIT ≡ owed_limit }
    ensures span_limit { SPAN_LIMIT ≡ span_limit }
    ensures span_sum_limit { SPAN_SUM_LIMIT ≡ span_sum_limit }
    ensures held_limit { HELD_LIMIT ≡ held_limit }
    ensures waiting_limit { WAITING_LIMIT ≡ waiting_limit }
    ensures late_distance { LATE_DISTANCE ≡ late_distance }
{}

/// So are those of payloads.
pub fn limits_of_payloads()
    ensures part_bits { PART_BITS ≡ part_bits }
    ensures part_limit { PART_LIMIT ≡ part_limit }
    ensures payload_bits { PAYLOAD_BITS ≡ payload_bits }
    ensures update_bits { UPDATE_BITS ≡ update_bits }
{}

/// So are those of worlds, copies and players.
pub fn limits_of_worlds()
    ensures spawn_limit { SPAWN_LIMIT ≡ spawn_limit }
    ensures copy_limit { COPY_LIMIT ≡ copy_limit }
    ensures name_limit { NAME_LIMIT ≡ name_limit }
    ensures player_limit { PLAYER_LIMIT ≡ player_limit }
    ensures team_limit { TEAM_LIMIT ≡ team_limit }
    ensures connection_limit { CONNECTION_LIMIT ≡ connection_limit }
    ensures budget_limit { BUDGET_LIMIT ≡ budget_limit }
{}

/// So are those of class tables.
pub fn limits_of_tables()
    ensures class_limit { CLASS_LIMIT ≡ class_limit }
    ensures handle_limit { HANDLE_LIMIT ≡ handle_limit }
    ensures call_limit { CALL_LIMIT ≡ call_limit }
    ensures depth_limit { DEPTH_LIMIT ≡ depth_limit }
    ensures segment_limit { SEGMENT_LIMIT ≡ segment_limit }
    ensures name_bytes { NAME_BYTES ≡ name_bytes }
    ensures argument_limit { ARGUMENT_LIMIT ≡ argument_limit }
    ensures unreliable_call_bits { UNRELIABLE_CALL_BITS ≡ unreliable_call_bits }
    ensures reliable_call_bits { RELIABLE_CALL_BITS ≡ reliable_call_bits }
    ensures cull_limit { CULL_LIMIT ≡ cull_limit }
    ensures priority_limit { PRIORITY_LIMIT ≡ priority_limit }
{}

/// So are those of files.
pub fn limits_of_files()
    ensures table_bytes { TABLE_BYTES ≡ table_bytes }
    ensures script_bytes { SCRIPT_BYTES ≡ script_bytes }
    ensures line_bytes { LINE_BYTES ≡ line_bytes }
{}
