//! The stream that a word names.

ghost use Rattle.std.specs.Prelude.{◌≡◌, ◌<◌, length, IfOk, IfSome, IsErrOf};
ghost use Rattle.std.specs.Str.{bytes_eq};
ghost use Rattle.ats_command_input.specs.Outcome.{Gives};
ghost use Rattle.ats_command_input.specs.Stream.{stream_in, stream_named};

use crate::outcome::Stop;
use ats_network::Network;
use ats_streams::Stream;
use std::alloc::Global;

/// The number of the stream with this name. `Refused` exactly where no stream has it, also where a flow has. It takes
/// time linear in the number of streams.
#[tactic(auto, unfolding(crate::specs::Stream::stream_in))]
pub fn stream_in(alloc: Global, word: &str, network: &Network) -> Result<u32, Stop>
    ensures due { Gives (λ stream. stream) result (stream_in network.now.streams word.now) }
    ensures within { IfOk result (λ stream. stream < length network.now.streams) }
    ensures was_read { ¬ IsErrOf result Stop.ReadFailed }
{
    match stream_named(network, word.as_bytes()) {
        Some(stream) => Ok(stream),
        None => {
            let line = format!(in alloc; "refused stream {word}\n")?;
            Err(Stop::Refused(line.into_bytes()))
        }
    }
}

// The number of the stream with this name.
fn stream_named(network: &Network, word: &[u8]) -> Option<u32>
    ensures number { result ≡ stream_named network.now.streams word.now }
    ensures within { IfSome result (λ stream. stream < length network.now.streams) }
{
    let place = place_named(network.streams(), word)?;
    Some(place as u32)
}

// The place of the stream with this name.
fn place_named(streams: &[Stream], word: &[u8]) -> Option<usize>
    ensures place { result ≡ stream_named streams.now word.now }
    ensures within { IfSome result (λ place. place < length streams.now) }
{
    streams.iter().position(|stream| has_name(stream, word))
}

// Whether a stream has this name.
fn has_name(stream: &Stream, word: &[u8]) -> bool
    ensures { result ≡ bytes_eq stream.now.name word.now }
{
    let name = stream.name();
    name.bytes() == word
}
