//! What the rule of the board says, as the contract of a function.

ghost use Rattle.board.specs.Laws.{RuleSaysSo};

/// Between any two steps the tally counts the record's marks, each seat has seen a beginning of the record, a session's calls
/// there are those that it knows, each number in use is that of one seat, generation and pulse are at least what any seat has
/// seen, the device word tells of a giving up as `Board::device` says, and an edition's number is that of one edition.
#[tactic(auto, using(crate::proofs::RuleSays::rule_says))]
pub fn rule_says()
    ensures { RuleSaysSo }
{}
