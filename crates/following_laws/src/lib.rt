// A law of scripts: each line of a script that is read may follow those before it.
//
//     script -- Reads --> line, line, line, ..
//                          |     |     |
//                    story ++--> +---> +--->     Follows: what a replay asks of its next line
//
// Unreal's engine asserts such things where a call is made: that a connection is there, that a
// function belongs to the actor's class. A replay has them as a premise of its next line, and this
// law says that whoever reads the lines of an accepted script meets it.
//
// It stands on `script_model` for the lines that a script reads, on `replication_model` for the
// story that they tell, and on `headline_laws` for the edits that they make. It has no code: the
// law is the contract of a function that does nothing.
//
// It promises, over every class table: a player's line is of one who joined, a join is of a new
// player in range while there is room, the world takes each edit, packets are numbered from 1, and
// a call that the server makes is one of a spawned actor's class that goes to clients, with
// arguments that fit. It says nothing of the calls of clients, which may be any that is spelled
// right, since the end answers them.
//
// A proof above cites the law by its lemma:
//
//     use Rattle.following_laws.proofs.ReadFollowing.{read_following}
//
//     each_may_follow : FollowAll table first_story lines
//     each_may_follow = read_following table script lines read
#![tactic(auto)]

pub mod scripts;
