//! Laws of admission.

ghost use Rattle.ats_requests.specs.Laws.{AdmitIsJudged, EntryIsPush, LowestIsFirst, NoClassHasReasons, RequestKeeps};
ghost use Rattle.ats_requests.specs.Laws.{RequestsKeep};

/// A law: a network for which a certificate holds stays one after a request, and keeps its topology.
pub fn request_keeps()
    ensures { RequestKeeps }
{}

/// A law: so it does after any list of requests.
pub fn requests_keep()
    ensures { RequestsKeep }
{}

/// A law: the class that `Lowest` gives is the first that would be accepted: with it at each port the stream is
/// admitted with the same sum, and with each lower class it is refused.
pub fn lowest_is_first()
    ensures { LowestIsFirst }
{}

/// A law: where no class is given, there is a reason for each class from 1 to 7 with which the stream is refused.
pub fn no_class_has_reasons()
    ensures { NoClassHasReasons }
{}

/// A law: whether a stream is admitted is judged along its ports alone, port by port.
pub fn admit_is_judged()
    ensures { AdmitIsJudged }
{}

/// A law: a stream without an identity is refused before any certificate is asked for exactly where it can't be added
/// to the network, and for the same cause.
pub fn entry_is_push()
    ensures { EntryIsPush }
{}
