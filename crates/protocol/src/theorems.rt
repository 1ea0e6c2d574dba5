// What holds of the definitions as a whole, each as the contract of a call.
ghost use Rattle.protocol.specs.ByRows.{DueByRows};
ghost use Rattle.protocol.specs.Examples.{Worked};
ghost use Rattle.protocol.specs.Keeping.{LawKept};
ghost use Rattle.protocol.specs.Promises.{Promises};

/// The three promises over every series of calls: agreement, conservation and the way out by Query; and that every
/// draft opens whole. The call does nothing; its contract is the theorem.
pub fn promises_hold()
    ensures { Promises }
{}

/// Every call keeps the law of a record, and sends only letters that reading accepts. The contract is the theorem.
pub fn law_kept()
    ensures { LawKept }
{}

/// What is due to each depot after any series of calls, though defined by the lists that calls accepted, is told by the
/// depots' records alone. The contract is the theorem.
pub fn due_told_by_rows()
    ensures { DueByRows }
{}

/// The worked examples, from the definitions that the promises speak of. The contract is the theorem.
pub fn examples_hold()
    ensures { Worked }
{}
