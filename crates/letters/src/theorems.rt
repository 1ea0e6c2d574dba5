// What holds of the format as a whole, each as the contract of a call.
ghost use Rattle.letters.specs.OneForm.{OneForm};
ghost use Rattle.letters.specs.Examples.{WorkedLetters};

/// One form: every lawful letter is read back from its bytes, and no other bytes are read as it. The call does nothing:
/// its contract is the theorem, of which `read` and `write` carry the halves.
pub fn one_form()
    ensures { OneForm }
{}

/// Two worked letters byte for byte, written and read: an Ask by depot 2 of five, and the Offer to it by depot 0. The
/// call does nothing: its contract is the statement.
pub fn worked_letters()
    ensures { WorkedLetters }
{}
