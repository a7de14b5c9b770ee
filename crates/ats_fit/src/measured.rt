//! What is measured of a sender's releases.

ghost use Rattle.std.specs.Prelude.{◌≡◌};
ghost use Rattle.ats_fit.specs.Steps.{sizes_with};

/// The least and the greatest octets of frames, each counted with the frame check sequence, 64 to 2000.
#[derive(Clone, Copy, Debug, PartialEq, Eq)]
pub struct Sizes {
    /// The least.
    pub least: u32,
    /// The greatest.
    pub greatest: u32,
}

impl Sizes {
    /// Those of one frame more.
    pub(crate) fn with(so_far: Option<Sizes>, octets: u32) -> Sizes
        ensures { result ≡ sizes_with so_far octets }
    {
        match so_far {
            Some(sizes) => Sizes {
                least: sizes.least.min(octets),
                greatest: sizes.greatest.max(octets),
            },
            None => Sizes {
                least: octets,
                greatest: octets,
            },
        }
    }
}

/// What is measured of the releases of one sender.
#[derive(Clone, Copy, Debug, PartialEq, Eq)]
pub struct Measured {
    /// How many there are, 0 to 200,000.
    pub frames: u32,
    /// Their least and greatest octets; `None` where there is no release.
    pub sizes: Option<Sizes>,
    /// Of a stream the least burst with which they conform to its declared rate, in wire bits: 0 where there is no
    /// release. `None` for a flow.
    pub burst_bits: Option<u64>,
}
