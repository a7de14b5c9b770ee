//! The text of what is measured, sender by sender.

ghost use Rattle.std.specs.Prelude.{◌≡◌, ◌++◌, length, zip, IfOk, OnOk};
ghost use Rattle.std.specs.List.{flat_map};
ghost use Rattle.ats_network.specs.Network.{senders_of};
ghost use Rattle.ats_network.specs.SenderView.{sender_of};
ghost use Rattle.ats_fit_text.specs.Text.{burst_text, fit_text, kind_text, sender_line, sizes_text, total_line};

use ats_fit::{Measured, Sizes, declared_burst, senders_over};
use ats_network::{Network, Sender};
use ats_trace::Release;
use itoa::{Buffer, Integer};
use std::alloc::{AllocError, Global};

/// What is measured of these releases of a network, as text: a line for each stream and then for each flow, in their
/// order, with the number of its releases, their least and greatest octets, and for a stream its least burst and the
/// declared one, in wire bits; and last a line with the numbers of all releases, of the streams, and of the streams and
/// flows that are over what they declare. It takes time linear in the number of senders. `AllocError` where there is no
/// memory for the text.
#[tactic(auto, unfolding(crate::specs::Text::fit_text))]
pub fn fitted(
    alloc: Global,
    network: &Network,
    releases: &[Release],
    measured: &[Measured],
) -> Result<Vec<u8>, AllocError>
    requires { length measured.now ≡ length (senders_of network.now) }
    ensures { IfOk result (λ text. text.items ≡ fit_text network.now releases.now measured.now) }
{
    let mut out = Vec::new(alloc);
    write_senders(&mut out, network, measured)?;
    write_total(
        &mut out,
        releases.len(),
        network.streams().len(),
        senders_over(network, measured),
    )?;
    Ok(out)
}

// A line for each sender.
fn write_senders(
    out: &mut Vec<u8>,
    network: &Network,
    measured: &[Measured],
) -> Result<(), AllocError>
    requires { length measured.now ≡ length (senders_of network.now) }
    ensures { OnOk result
        (out.new.items ≡ out.old.items ++ flat_map sender_line (zip (senders_of network.now) measured.now)) }
{
    for sender in 0..network.senders() {
        write_sender(out, &network.sender(sender), &measured[sender as usize])?;
    }
    Ok(())
}

// The line of a sender.
#[tactic(auto, unfolding(crate::specs::Text::sender_line))]
fn write_sender(
    out: &mut Vec<u8>,
    sender: &Sender<'_>,
    measured: &Measured,
) -> Result<(), AllocError>
    ensures { OnOk result (out.new.items ≡ out.old.items ++ sender_line (sender_of sender.now, measured.now)) }
{
    out.extend_from_slice(kind(measured.burst_bits))?;
    out.extend_from_slice(sender.name().bytes())?;
    write_number(out, b" frames ", measured.frames)?;
    out.extend_from_slice(b" octets ")?;
    write_sizes(out, measured.sizes)?;
    write_burst(out, declared_burst(sender), measured.burst_bits)?;
    out.extend_from_slice(b"\n")?;
    Ok(())
}

// The word before a sender's name, by its least burst.
fn kind(burst_bits: Option<u64>) -> &'static [u8]
    ensures { result.now ≡ kind_text burst_bits }
{
    match burst_bits {
        Some(_) => b"stream ",
        None => b"flow ",
    }
}

// The least and the greatest octets.
fn write_sizes(out: &mut Vec<u8>, sizes: Option<Sizes>) -> Result<(), AllocError>
    ensures { OnOk result (out.new.items ≡ out.old.items ++ sizes_text sizes) }
{
    match sizes {
        Some(sizes) => {
            write_number(out, b"", sizes.least)?;
            write_number(out, b" ", sizes.greatest)
        }
        None => out.extend_from_slice(b"- -"),
    }
}

// The least burst and the declared one, where there is a least one.
fn write_burst(out: &mut Vec<u8>, declared: u64, burst_bits: Option<u64>) -> Result<(), AllocError>
    ensures { OnOk result (out.new.items ≡ out.old.items ++ burst_text declared burst_bits) }
{
    if let Some(burst) = burst_bits {
        write_number(out, b" burst ", burst)?;
        write_number(out, b" of ", declared)?;
    }
    Ok(())
}

// The last line, with the numbers of all releases, of the streams, and of the senders that are over what they declare.
#[tactic(auto, unfolding(crate::specs::Text::total_line))]
fn write_total(
    out: &mut Vec<u8>,
    frames: usize,
    streams: usize,
    over: u32,
) -> Result<(), AllocError>
    ensures { OnOk result (out.new.items ≡ out.old.items ++ total_line frames streams over) }
{
    write_number(out, b"total frames ", frames)?;
    write_number(out, b" streams ", streams)?;
    write_number(out, b" over ", over)?;
    out.extend_from_slice(b"\n")?;
    Ok(())
}

// A word, and a number behind it.
fn write_number<I: Integer + Drop>(out: &mut Vec<u8>, word: &[u8], n: I) -> Result<(), AllocError>
    ensures { OnOk result (out.new.items ≡ out.old.items ++ (word.now ++ I.text n)) }
{
    let mut buffer = Buffer::new();
    out.extend_from_slice(word)?;
    out.extend_from_slice(buffer.format(n).as_bytes())?;
    Ok(())
}
