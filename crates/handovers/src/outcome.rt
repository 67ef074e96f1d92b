// What came of a datagram.
use class_layout::HandedList;
use protocol_model::Verdict;

/// The calls that a datagram hands over, in the order in which they came, and what the end says of
/// it. Of a datagram that closes the end, the calls before the rule that it broke are handed over.
#[derive(Debug, Drop)]
pub struct Outcome {
    pub handed: HandedList,
    pub verdict: Verdict,
}
