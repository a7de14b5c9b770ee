//! The command table.

ghost use Rattle.std.specs.Prelude.{◌≡◌};
ghost use Rattle.ats_command_input.specs.Command.{capture_in, command_of, generate_in, peaks_in, record_in, replay_in};
ghost use Rattle.ats_command_input.specs.Making.{count_named, seed_named};
ghost use Rattle.ats_command_input.specs.Order.{order_named};
ghost use Rattle.ats_command_input.specs.Command.{with_four, with_one, with_three, with_two};
ghost use Rattle.ats_command_input.specs.Command.{lrq_with_one, lrq_with_two};
ghost use Rattle.ats_command_input.specs.Named.{texts_of, view_of};

use crate::making::{FrameCount, count_named, seed_named};
use crate::order::{Order, order_named};

/// A line of the command table, with its words.
#[derive(Clone, Copy)]
pub enum Command<'a> {
    /// `shape FILE`: one group of schedulers, from arrivals to verdicts.
    Shape(&'a str),
    /// `show NET`: the ports of a network, and the routes of its streams and flows.
    Show(&'a str),
    /// `bound NET`: the certificate of a network with the least waits.
    Bound(&'a str),
    /// `explain NET`: why the least bounds of a network are as large as they are.
    Explain(&'a str),
    /// `settings NET`: what to set in each bridge of a network.
    Settings(&'a str),
    /// `check NET CERT`: judges a certificate of a network, and gives the sums.
    Check(&'a str, &'a str),
    /// `buffers NET CERT`: how much each port must be able to hold of each class, by a certificate that holds.
    Buffers(&'a str, &'a str),
    /// `conform NET SCHEDULE`: judges the releases of a schedule by the declared buckets and sizes.
    Conform(&'a str, &'a str),
    /// `admit NET REQUESTS`: answers requests to admit streams and to withdraw them, one after the other.
    Admit(&'a str, &'a str),
    /// `replay NET SCHEDULE ORDER`: runs a schedule, and gives every journey.
    Replay(&'a str, &'a str, Order),
    /// `capture NET STATION FILE ORDER`: runs what a station sent by a capture, and gives every journey.
    Capture(&'a str, &'a str, &'a str, Order),
    /// `generate NET SEED COUNT`: makes releases by which all talkers keep their buckets, runs them, and sums them up.
    Generate(&'a str, u64, FrameCount),
    /// `buffers NET CERT SCHEDULE ORDER`: the same, and the most that it held in a run of the schedule.
    Peaks(&'a str, &'a str, &'a str, Order),
    /// `lrq shape FILE`: one length-rate-quotient regulator, from arrivals to verdicts.
    LrqShape(&'a str),
    /// `lrq bound NET`: the certificate of a network with the least waits, where each talker keeps its spacing.
    LrqBound(&'a str),
    /// `lrq check NET CERT`: judges a certificate so, and gives the sums.
    LrqCheck(&'a str, &'a str),
    /// `record NET SCHEDULE ORDER PORT`: runs a schedule, and gives what a port sent as a capture.
    Record(&'a str, &'a str, Order, &'a str),
    /// `witness NET NAME`: delays of a stream that can happen, beside the sum of its least bounds.
    Witness(&'a str, &'a str),
    /// `releases NET STATION FILE`: the schedule of what a station sent by a capture.
    Releases(&'a str, &'a str, &'a str),
    /// `fit NET SCHEDULE`: what the releases of a schedule need of what their senders declare.
    Fit(&'a str, &'a str),
}

/// The command that words name; `None` exactly where they are not in the table.
pub fn named_by(words: &[String]) -> Option<Command<'_>>
    ensures { view_of result ≡ command_of (texts_of words.now) }
{
    match words {
        [verb, file] => with_one(verb, file),
        [verb, net, file] => with_two(verb, net, file),
        [verb, net, second, third] => with_three(verb, net, second, third),
        [verb, net, second, third, fourth] => with_four(verb, net, second, third, fourth),
        _ => None,
    }
}

// The command of the other regulator with one word.
#[tactic(auto, unfolding(crate::specs::Command::lrq_with_one))]
fn lrq_with_one<'a>(verb: &str, file: &'a str) -> Option<Command<'a>>
    ensures { view_of result ≡ lrq_with_one verb.now file.now }
{
    if verb == "shape" {
        Some(Command::LrqShape(file))
    } else if verb == "bound" {
        Some(Command::LrqBound(file))
    } else {
        None
    }
}

// The command of the other regulator with two words.
#[tactic(auto, unfolding(crate::specs::Command::lrq_with_two))]
fn lrq_with_two<'a>(verb: &str, net: &'a str, certificate: &'a str) -> Option<Command<'a>>
    ensures { view_of result ≡ lrq_with_two verb.now net.now certificate.now }
{
    if verb == "check" {
        Some(Command::LrqCheck(net, certificate))
    } else {
        None
    }
}

// The command of a verb with one word.
#[tactic(auto, unfolding(crate::specs::Command::with_one))]
fn with_one<'a>(verb: &str, file: &'a str) -> Option<Command<'a>>
    ensures { view_of result ≡ with_one verb.now file.now }
{
    if verb == "shape" {
        Some(Command::Shape(file))
    } else if verb == "show" {
        Some(Command::Show(file))
    } else if verb == "bound" {
        Some(Command::Bound(file))
    } else if verb == "explain" {
        Some(Command::Explain(file))
    } else if verb == "settings" {
        Some(Command::Settings(file))
    } else {
        None
    }
}

// The command of a verb with two words.
#[tactic(auto, unfolding(crate::specs::Command::with_two))]
fn with_two<'a>(verb: &str, net: &'a str, file: &'a str) -> Option<Command<'a>>
    ensures { view_of result ≡ with_two verb.now net.now file.now }
{
    if verb == "check" {
        Some(Command::Check(net, file))
    } else if verb == "buffers" {
        Some(Command::Buffers(net, file))
    } else if verb == "conform" {
        Some(Command::Conform(net, file))
    } else if verb == "admit" {
        Some(Command::Admit(net, file))
    } else if verb == "witness" {
        Some(Command::Witness(net, file))
    } else if verb == "fit" {
        Some(Command::Fit(net, file))
    } else if verb == "lrq" {
        lrq_with_one(net, file)
    } else {
        None
    }
}

// The command of a verb with three words.
#[tactic(auto, unfolding(crate::specs::Command::with_three))]
fn with_three<'a>(verb: &str, net: &'a str, second: &'a str, third: &'a str) -> Option<Command<'a>>
    ensures { view_of result ≡ with_three verb.now net.now second.now third.now }
{
    if verb == "replay" {
        replay_in(net, second, third)
    } else if verb == "generate" {
        generate_in(net, second, third)
    } else if verb == "releases" {
        Some(Command::Releases(net, second, third))
    } else if verb == "lrq" {
        lrq_with_two(net, second, third)
    } else {
        None
    }
}

// The command of a verb with four words.
#[tactic(auto, unfolding(crate::specs::Command::with_four))]
fn with_four<'a>(
    verb: &str,
    net: &'a str,
    second: &'a str,
    third: &'a str,
    fourth: &'a str,
) -> Option<Command<'a>>
    ensures { view_of result ≡ with_four verb.now net.now second.now third.now fourth.now }
{
    if verb == "capture" {
        capture_in(net, second, third, fourth)
    } else if verb == "buffers" {
        peaks_in(net, second, third, fourth)
    } else if verb == "record" {
        record_in(net, second, third, fourth)
    } else {
        None
    }
}

// The replay of a schedule in the order that a word names.
fn replay_in<'a>(net: &'a str, schedule: &'a str, order: &str) -> Option<Command<'a>>
    ensures { view_of result ≡ replay_in net.now schedule.now (order_named order.now) }
{
    Some(Command::Replay(net, schedule, order_named(order)?))
}

// The buffers beside the peaks of a schedule in the order that a word names.
fn peaks_in<'a>(
    net: &'a str,
    certificate: &'a str,
    schedule: &'a str,
    order: &str,
) -> Option<Command<'a>>
    ensures { view_of result ≡ peaks_in net.now certificate.now schedule.now (order_named order.now) }
{
    Some(Command::Peaks(net, certificate, schedule, order_named(order)?))
}

// The capture of a port in a replay of a schedule in the order that a word names.
fn record_in<'a>(net: &'a str, schedule: &'a str, order: &str, port: &'a str) -> Option<Command<'a>>
    ensures { view_of result ≡ record_in net.now schedule.now (order_named order.now) port.now }
{
    Some(Command::Record(net, schedule, order_named(order)?, port))
}

// The making of traffic from the seed and of as many frames as words name.
fn generate_in<'a>(net: &'a str, seed: &str, count: &str) -> Option<Command<'a>>
    ensures { view_of result ≡ generate_in net.now (seed_named seed.now) (count_named count.now) }
{
    Some(Command::Generate(net, seed_named(seed)?, count_named(count)?))
}

// The replay of a capture at a station in the order that a word names.
fn capture_in<'a>(net: &'a str, station: &'a str, file: &'a str, order: &str) -> Option<Command<'a>>
    ensures { view_of result ≡ capture_in net.now station.now file.now (order_named order.now) }
{
    Some(Command::Capture(net, station, file, order_named(order)?))
}
