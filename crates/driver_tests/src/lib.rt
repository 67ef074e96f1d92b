// Tests of a server: its packets, byte for byte, and what it makes of datagrams.
//
// They stand above `net_driver`, so that it is proved once, without them. They show what no clause
// says: that the definitions mean what was meant (each packet of a worked example), that calls succeed
// with ample memory, and that no datagram makes a server stumble. Examples are tables of deeds, as
// edits, ticks with the packets that they are to send, and datagrams of clients, which one function
// plays. There is nothing here to call.
#![tactic(auto)]

#[cfg(test)]
mod datagrams;
#[cfg(test)]
mod examples;
#[cfg(test)]
mod joins;
#[cfg(test)]
mod playing;
