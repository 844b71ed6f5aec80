//! The laws of the receiver's desk. The functions do nothing: the contract of each is the law.
ghost use Rattle.bp_receiver.specs.Laws.{EventsLaw, WantLaw};

/// What a receiver wants is answered alike in any two matters that show the same of what is granted
/// to it, whatever else differs in pixels, words, values and withheld documents.
pub fn want_law()
    ensures { WantLaw }
{}

/// Two matters differ in pixels, words and values alone. A list of events then grants the same in
/// both, and each event of a receiver is answered alike where they show the same of each production
/// that is granted to it.
pub fn events_law()
    ensures { EventsLaw }
{}
