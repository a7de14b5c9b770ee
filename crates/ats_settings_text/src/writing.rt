//! The text of settings.

ghost use Rattle.std.specs.Prelude.{◌≡◌, ◌++◌, All, IfOk, OnOk, map};
ghost use Rattle.std.specs.Option.{option_map};
ghost use Rattle.ats_csv.specs.Plain.{bytes_of, record_text};
ghost use Rattle.ats_settings.specs.Settings.{IsSettingOf};
ghost use Rattle.ats_settings.specs.declared.setting.Shaping.{Shaping};
ghost use Rattle.ats_settings_text.specs.Text.{fields_of, header, number_text, settings_text};

use ats_csv::{Field, push_record};
use ats_network::Network;
use ats_port_names::write_port;
use ats_settings::{Setting, Shaping};
use std::alloc::{AllocError, Global};

// The text of the first record.
const HEADER_LINE: &[u8] =
    b"bridge,received_from,class,stream,rate_bps,burst_bits,max_octets,residence_ns,sent_to,class_there\n";

/// The text of settings of a network's bridges: the header, and a record for each setting, with the
/// names of nodes, ports, streams and flows. `AllocError` where there is no memory for it.
#[tactic(auto, using(crate::proofs::Texts::setting_more, crate::proofs::Texts::no_setting))]
pub fn write_settings(
    alloc: Global,
    network: &Network,
    settings: &[Setting],
) -> Result<Vec<u8>, AllocError>
    requires { All (IsSettingOf network.now) settings.now }
    ensures { IfOk result (λ text. text.items ≡ settings_text network.now settings.now) }
{
    let mut out = Vec::new(alloc);
    write_header(&mut out)?;
    for setting in settings {
        write_setting(alloc, &mut out, network, setting)?;
    }
    Ok(out)
}

// Appends the record of the header.
#[tactic(auto, unfolding(crate::specs::Text::header))]
fn write_header(out: &mut Vec<u8>) -> Result<(), AllocError>
    ensures { OnOk result (out.new.items ≡ out.old.items ++ record_text header) }
{
    Ok(out.extend_from_slice(HEADER_LINE)?)
}

// Appends the record of a setting.
fn write_setting(
    alloc: Global,
    out: &mut Vec<u8>,
    network: &Network,
    setting: &Setting,
) -> Result<(), AllocError>
    requires { IsSettingOf network.now setting.now }
    ensures { OnOk result (out.new.items ≡ out.old.items ++ record_text (fields_of network.now setting.now)) }
{
    let topology = network.topology();
    let mut received_from = Vec::new(alloc);
    write_port(&mut received_from, topology, setting.received_from)?;
    let mut sent_to = Vec::new(alloc);
    write_port(&mut sent_to, topology, setting.sent_to)?;
    let bridge = topology.nodes()[setting.bridge as usize].name;
    let name = network.sender_name(setting.sender);
    push_record(
        out,
        &[
            Field::Text(bridge.bytes()),
            Field::Text(&received_from),
            Field::Number(setting.class.into()),
            Field::Text(name.bytes()),
            rate_field(setting.scheduler),
            burst_field(setting.scheduler),
            Field::Number(setting.max_octets.into()),
            residence_field(setting.scheduler),
            Field::Text(&sent_to),
            Field::Number(setting.class_there.into()),
        ],
    )
}

// The rate of a scheduler in bits per second, or nothing where there is none.
fn rate_field<'a>(scheduler: Option<Shaping>) -> Field<'a>
    ensures { bytes_of result ≡ number_text (option_map (λ (x : Shaping). x.rate_bps) scheduler) }
{
    match scheduler {
        None => Field::Text(b""),
        Some(shaping) => Field::Number(shaping.rate_bps.into()),
    }
}

// The burst of a scheduler in bits, or nothing where there is none.
fn burst_field<'a>(scheduler: Option<Shaping>) -> Field<'a>
    ensures { bytes_of result ≡ number_text (option_map (λ (x : Shaping). x.burst_bits) scheduler) }
{
    match scheduler {
        None => Field::Text(b""),
        Some(shaping) => Field::Number(shaping.burst_bits.into()),
    }
}

// The maximum residence time of a scheduler's group in nanoseconds, or nothing where there is no scheduler.
fn residence_field<'a>(scheduler: Option<Shaping>) -> Field<'a>
    ensures { bytes_of result ≡ number_text (option_map (λ (x : Shaping). x.residence_ns) scheduler) }
{
    match scheduler {
        None => Field::Text(b""),
        Some(shaping) => Field::Number(shaping.residence_ns.into()),
    }
}
