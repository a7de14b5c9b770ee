//! Pieces of lines.

ghost use Rattle.std.specs.Prelude.{◌≡◌, ◌++◌, OnOk};
ghost use Rattle.ats_network.specs.Listeners.{listener_text};
ghost use Rattle.ats_explain_text.specs.Text.{bound_text, counts_text, kind_text, parts_text, sender_text, slack_text};
ghost use Rattle.ats_explain_text.specs.Text.{stay_text, tightest_text, wait_text};

use ats_explain::{Margin, Parts, Stay, Tightest, Totals};
use ats_num::Name;
use itoa::{Buffer, Integer};
use std::alloc::AllocError;

// A word, and a number behind it.
pub(crate) fn write_number<I: Integer + Drop>(
    out: &mut Vec<u8>,
    word: &[u8],
    n: I,
) -> Result<(), AllocError>
    ensures { OnOk result (out.new.items ≡ out.old.items ++ (word.now ++ I.text n)) }
{
    let mut buffer = Buffer::new();
    out.extend_from_slice(word)?;
    out.extend_from_slice(buffer.format(n).as_bytes())?;
    Ok(())
}

// The slack, or by how much the sum is over the deadline.
pub(crate) fn write_slack(out: &mut Vec<u8>, margin: &Margin) -> Result<(), AllocError>
    ensures { OnOk result (out.new.items ≡ out.old.items ++ slack_text margin.now) }
{
    if margin.is_late() {
        write_number(out, b" late ", margin.late())
    } else {
        write_number(out, b" slack ", margin.slack())
    }
}

// The parts of a bound, and the bound.
pub(crate) fn write_parts(out: &mut Vec<u8>, parts: &Parts) -> Result<(), AllocError>
    ensures { OnOk result (out.new.items ≡ out.old.items ++ parts_text parts.now) }
{
    write_wait(out, parts)?;
    write_bound(out, parts)?;
    write_stay(out, &parts.stay)
}

// The parts of the wait.
#[tactic(auto, unfolding(crate::specs::Text::wait_text))]
fn write_wait(out: &mut Vec<u8>, parts: &Parts) -> Result<(), AllocError>
    ensures { OnOk result (out.new.items ≡ out.old.items ++ wait_text parts.now) }
{
    write_number(out, b" lower ", parts.lower)?;
    out.extend_from_slice(b" ")?;
    write_sender(out, &parts.sender)?;
    write_number(out, b" bursts ", parts.bursts)?;
    write_number(out, b" higher ", parts.higher)
}

// The other parts, and the bound.
#[tactic(auto, unfolding(crate::specs::Text::bound_text))]
fn write_bound(out: &mut Vec<u8>, parts: &Parts) -> Result<(), AllocError>
    ensures { OnOk result (out.new.items ≡ out.old.items ++ bound_text parts.now) }
{
    write_number(out, b" frame ", parts.frame)?;
    write_number(out, b" latency ", parts.latency)?;
    write_number(out, b" bound ", parts.bound)
}

// The name of a sender, if there is one.
fn write_sender(out: &mut Vec<u8>, sender: &Option<Name>) -> Result<(), AllocError>
    ensures { OnOk result (out.new.items ≡ out.old.items ++ sender_text sender.now) }
{
    match sender {
        Some(name) => out.extend_from_slice(name.bytes()),
        None => out.extend_from_slice(b"-"),
    }
}

// A stay behind a port, if there is one.
fn write_stay(out: &mut Vec<u8>, stay: &Option<Stay>) -> Result<(), AllocError>
    ensures { OnOk result (out.new.items ≡ out.old.items ++ stay_text stay.now) }
{
    let Some(stay) = stay else {
        return Ok(());
    };
    write_number(out, b" stay ", stay.need)?;
    write_number(out, b" of ", stay.residence)
}

// What begins the line of a listener.
pub(crate) fn write_kind(out: &mut Vec<u8>, listener: &Option<Name>) -> Result<(), AllocError>
    ensures { OnOk result (out.new.items ≡ out.old.items ++ kind_text listener.now) }
{
    match listener {
        Some(_) => out.extend_from_slice(b"listener "),
        None => out.extend_from_slice(b"stream "),
    }
}

// The name of a stream, and behind it that of the station of a further listener.
pub(crate) fn write_named(
    out: &mut Vec<u8>,
    stream: &Name,
    listener: &Option<Name>,
) -> Result<(), AllocError>
    ensures { OnOk result (out.new.items ≡ out.old.items ++ listener_text stream.now listener.now) }
{
    out.extend_from_slice(stream.bytes())?;
    let Some(station) = listener else {
        return Ok(());
    };
    out.extend_from_slice(b" ")?;
    out.extend_from_slice(station.bytes())?;
    Ok(())
}

// The tightest listener, if there is one.
pub(crate) fn write_tightest(
    out: &mut Vec<u8>,
    tightest: &Option<Tightest>,
) -> Result<(), AllocError>
    ensures { OnOk result (out.new.items ≡ out.old.items ++ tightest_text tightest.now) }
{
    let Some(tightest) = tightest else {
        return Ok(());
    };
    out.extend_from_slice(b" tightest ")?;
    write_named(out, &tightest.name, &tightest.listener)?;
    write_slack(out, &tightest.margin)
}

// The counts of totals.
#[tactic(auto, unfolding(crate::specs::Text::counts_text))]
pub(crate) fn write_counts(out: &mut Vec<u8>, totals: &Totals) -> Result<(), AllocError>
    ensures { OnOk result (out.new.items ≡ out.old.items ++ counts_text totals.now) }
{
    write_number(out, b"total streams ", totals.streams)?;
    write_number(out, b" late ", totals.late)?;
    write_number(out, b" over ", totals.over)
}
