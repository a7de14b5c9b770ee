//! The text of a run, sender by sender.

ghost use Rattle.std.specs.Prelude.{◌≡◌, ◌++◌, ◌<◌, length, All, OnOk, IfOk};
ghost use Rattle.std.specs.Option.{option_copied};
ghost use Rattle.ats_network.specs.Network.{senders_of};
ghost use Rattle.ats_network.specs.Senders.{sender_at};
ghost use Rattle.ats_trace.specs.Journey.{IsJourney};
ghost use Rattle.ats_trace.specs.Ways.{listener_count};
ghost use Rattle.ats_replay.specs.Inside.{summary_at};
ghost use Rattle.ats_replay.specs.Summary.{first_of};
ghost use Rattle.ats_replay.specs.Report.{bound_at, bound_text, kind_text, report_text, sender_lines, summary_text};
ghost use Rattle.ats_replay.specs.Report.{title_text};

use crate::ended::Ended;
use crate::lines::write_number;
use crate::summary::{Summary, firsts_of, summarize};
use crate::totals::{totals_of, write_counts, write_totals};
use ats_network::{Network, station_of};
use std::alloc::{AllocError, Global};

/// What came of the frames of each sender, in a line for each stream and then for each flow, in order, and behind that
/// of a stream one for each further listener: how many frames there were, how many of them arrived there and for what
/// the others were discarded, the longest that one took from its release to the listener, and a bound, which is for a
/// stream the number in `sums` where these are given, one for each listener, stream by stream, and `-` otherwise. Then
/// a line of totals. Condition: each frame goes along its sender's legs (`IsJourney`), as in every legal run. It takes
/// time linear in the legs of the frames and senders, and the text is made in one buffer. `AllocError` where there is
/// no memory for it.
#[tactic(auto, unfolding(crate::specs::Report::report_text))]
pub fn report<R: Ended>(
    alloc: Global,
    network: &Network,
    run: &R,
    sums: Option<&[u128]>,
) -> Result<Vec<u8>, AllocError>
    requires { All (IsJourney network.now) (R.run run.now) }
    ensures { IfOk result (λ text. text.items ≡ report_text network.now (R.run run.now) (option_copied sums.entry)) }
{
    let firsts = firsts_of(alloc, network)?;
    let summaries = summarize(alloc, network, run, &firsts)?;
    let mut out = Vec::new(alloc);
    for sender in 0..network.senders() {
        write_sender(
            &mut out,
            network,
            sender,
            firsts[sender as usize],
            &summaries,
            sums,
        )?;
    }
    write_totals(&mut out, &totals_of(network, run))?;
    Ok(out)
}

// The lines of a sender, for whose listeners the summaries and sums begin at this place.
fn write_sender(
    out: &mut Vec<u8>,
    network: &Network,
    sender: u32,
    first: usize,
    summaries: &[Summary],
    sums: Option<&[u128]>,
) -> Result<(), AllocError>
    requires sender { sender < length (senders_of network.now) }
    requires first { first ≡ first_of network.now sender }
    requires all { length summaries.now ≡ first_of network.now (length (senders_of network.now)) }
    ensures { OnOk result (out.new.items ≡ out.old.items
        ++ sender_lines network.now (summary_at network.now summaries.now) (option_copied sums.entry) sender) }
{
    for leg in 0..network.sender_legs(sender) {
        let place = first + leg as usize;
        write_title(out, network, sender, leg)?;
        write_summary(
            out,
            &summaries[place],
            bound_at(network, sums, sender, place),
        )?;
    }
    Ok(())
}

// What a line is of: a sender, or a further listener of a stream.
fn write_title(
    out: &mut Vec<u8>,
    network: &Network,
    sender: u32,
    leg: u32,
) -> Result<(), AllocError>
    requires sender { sender < length (senders_of network.now) }
    requires leg { leg < listener_count (sender_at network.now sender) }
    ensures { OnOk result (out.new.items ≡ out.old.items ++ title_text network.now sender leg) }
{
    let name = network.sender_name(sender);
    if leg == 0 {
        write_kind(out, network, sender)?;
        return out.extend_from_slice(name.bytes());
    }
    let route = network.sender_route(sender, leg);
    let station = station_of(network.topology(), route.as_slice());
    out.extend_from_slice(b"listener ")?;
    out.extend_from_slice(name.bytes())?;
    out.extend_from_slice(b" ")?;
    out.extend_from_slice(station.bytes())
}

// What a sender is called.
fn write_kind(out: &mut Vec<u8>, network: &Network, sender: u32) -> Result<(), AllocError>
    requires { sender < length (senders_of network.now) }
    ensures { OnOk result (out.new.items ≡ out.old.items ++ kind_text network.now sender) }
{
    if network.sender(sender).is_stream() {
        return out.extend_from_slice(b"stream ");
    }
    out.extend_from_slice(b"flow ")
}

// What stands in a line behind what it is of.
#[tactic(auto, unfolding(crate::specs::Report::summary_text))]
fn write_summary(
    out: &mut Vec<u8>,
    summary: &Summary,
    bound: Option<u128>,
) -> Result<(), AllocError>
    ensures { OnOk result (out.new.items ≡ out.old.items ++ summary_text summary.now bound) }
{
    out.extend_from_slice(b" ")?;
    write_counts(out, &summary.totals)?;
    write_number(out, b" worst ", summary.worst.0)?;
    out.extend_from_slice(b" bound ")?;
    write_bound(out, bound)?;
    out.extend_from_slice(b"\n")?;
    Ok(())
}

// The bound for the listener of a sender at this place, where there is one.
fn bound_at(network: &Network, sums: Option<&[u128]>, sender: u32, place: usize) -> Option<u128>
    requires { sender < length (senders_of network.now) }
    ensures { result ≡ bound_at network.now (option_copied sums.entry) sender place }
{
    if network.sender(sender).is_stream() {
        return sums?.get(place).copied();
    }
    None
}

// A bound, or that there is none.
fn write_bound(out: &mut Vec<u8>, bound: Option<u128>) -> Result<(), AllocError>
    ensures { OnOk result (out.new.items ≡ out.old.items ++ bound_text bound) }
{
    match bound {
        Some(sum) => write_number(out, b"", sum),
        None => out.extend_from_slice(b"-"),
    }
}
