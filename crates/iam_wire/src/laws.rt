ghost use Rattle.iam_wire.specs.Stream.{AtMostOneMessage, AtMostOneFault, WholeIsNoPrefix, WholeIsNoFault, PrefixIsNoFault, PrefixIsShort, SomeFront, AtMostOneStream, SomeStream, MessageStays, FaultStays, TakenStays, TakesAnother, ReadsTheRest, TakesTheirFirst, EndAsRead, FaultAsRead, LastAsRead, TakenAsRead, OneMoreAsRead, FirstOfAll, AllAreFirst};

/// The bytes determine the message at their front and what is left behind it.
pub fn one_message()
    ensures { AtMostOneMessage }
{}

/// What stands at the front of bytes is one of three: a message, a proper prefix of one, or one fault.
pub fn one_front()
    ensures whole { WholeIsNoPrefix }
    ensures good { WholeIsNoFault }
    ensures prefix { PrefixIsNoFault }
    ensures fault { AtMostOneFault }
{}

/// One of the three always stands there.
pub fn some_front()
    ensures { SomeFront }
{}

/// The bytes determine their messages and how they end.
pub fn one_stream()
    ensures { AtMostOneStream }
{}

/// All bytes have messages and an end.
pub fn some_stream()
    ensures { SomeStream }
{}

/// What was found at the front of bytes stays so as more come, unless it was a prefix.
pub fn found_stays()
    ensures message { MessageStays }
    ensures fault { FaultStays }
    ensures taken { TakenStays }
{}

/// The messages of bytes can be taken one at a time.
pub fn stream_in_turn()
    ensures more { TakesAnother }
    ensures whole { ReadsTheRest }
    ensures first { TakesTheirFirst }
{}

/// A proper prefix of a message is shorter than the longest head and the longest body together.
pub fn prefixes_are_short()
    ensures { PrefixIsShort }
{}

/// What was taken of the bytes that were read so far, and how they end, is so of the whole input, however it was cut into pieces.
pub fn stream_as_read()
    ensures end { EndAsRead }
    ensures fault { FaultAsRead }
    ensures last { LastAsRead }
    ensures taken { TakenAsRead }
    ensures more { OneMoreAsRead }
    ensures first { FirstOfAll }
    ensures all { AllAreFirst }
{}
