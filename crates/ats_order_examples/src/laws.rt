//! Orders of frames at each kind of port, and of flows.

ghost use Rattle.ats_order_examples.specs.Clocked.{LegalByClocksIsMeant};
ghost use Rattle.ats_order_examples.specs.Discards.{DiscardedAreNotSent};
ghost use Rattle.ats_order_examples.specs.FlowBreaks.{FlowsBreakAlone};
ghost use Rattle.ats_order_examples.specs.Flows.{FlowsAreKept};
ghost use Rattle.ats_order_examples.specs.Journeys.{JourneysAreMeant};
ghost use Rattle.ats_order_examples.specs.Keys.{KeysAreOfAll};
ghost use Rattle.ats_order_examples.specs.Orders.{OrdersAreKept};
ghost use Rattle.ats_order_examples.specs.Prompt.{PromptIsByEachBound};
ghost use Rattle.ats_order_examples.specs.Verdicts.{VerdictsAreMeant, VerdictsAreTold};

/// A run by an order keeps it at ports that leave a station and at ports between bridges; a legal run need not. A port
/// that is just through with a frame chooses among those that become eligible at that moment too.
pub fn orders_are_kept()
    ensures { OrdersAreKept }
{}

/// Frames of flows are sent and arrive in their order, and by an order's key and pace, as frames of streams do.
pub fn flows_are_kept()
    ensures { FlowsAreKept }
{}

/// Each rule of a port, of a link and of a journey is for a flow's frames too: for each there is a run of such frames
/// alone that breaks it, and nothing else.
pub fn flows_break_alone()
    ensures { FlowsBreakAlone }
{}

/// Of a frame that a bridge discards, since it is late or has no declared size, no times are told at which it is sent.
pub fn discarded_are_not_sent()
    ensures { DiscardedAreNotSent }
{}

/// A law, of any network, both ways: frames that come to a group are told what its judge says of each in the order of
/// their arrivals, by true time and by any clock; and one of a flow is eligible at its arrival or has no declared size.
pub fn verdicts_are_meant()
    ensures { VerdictsAreMeant }
{}

/// A frame that is late is told just when it would have been eligible, and that it is late; one without a declared size
/// is told that. No node discards a frame of a flow that has a declared size.
pub fn verdicts_are_told()
    ensures { VerdictsAreTold }
{}

/// A law, by any bounds, both ways: a frame comes to each port and to its listener within the bound of the port before
/// since it was eligible there. So does one that came early to the last port, though its sum is over later.
pub fn prompt_is_by_each_bound()
    ensures { PromptIsByEachBound }
{}

/// A law, of any network, both ways: a run is legal by clocks where it is so by its parts, with clocks of its nodes
/// and the times that these told; and what clocks and ports keep, part by part. Of frames of one tick, too, the one
/// that was told the earlier time goes first.
pub fn legal_by_clocks_is_each_part()
    ensures { LegalByClocksIsMeant }
{}

/// A law, of any frames, both ways: a port keeps the order of ties where it does so of all that tie, whatever it sends
/// between them; each link keeps its times and its order of all that cross, and its pace of each. So it is of two
/// frames of one class between which one of a higher class goes.
pub fn keys_are_of_all()
    ensures { KeysAreOfAll }
{}

/// A law, of any frame, both ways: which ways along ports are one, what its copies are and what its journey is; and
/// what each record tells of it to the ports, to the links and to the groups behind them.
pub fn journeys_are_meant()
    ensures { JourneysAreMeant }
{}
