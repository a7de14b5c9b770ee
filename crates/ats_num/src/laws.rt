//! What is proved of the definitions and the constants themselves.

ghost use Rattle.std.specs.Prelude.{◌≡◌};
ghost use Rattle.ats_num.specs.ReadsBack.{ReadsBack};
ghost use Rattle.ats_num.specs.declared.time.TheConstants.{PS_PER_SECOND, PS_PER_NS, END};
ghost use Rattle.ats_num.specs.declared.rate.TheConstants.{MAX_BPS, MAX_BURST_BITS};
ghost use Rattle.ats_num.specs.declared.wire.TheConstants.{MIN_OCTETS, MAX_OCTETS, MAX_WIRE_BITS};
ghost use Rattle.ats_num.specs.declared.pace.TheConstants.{MAX_SPREAD};

/// What is printed in decimal is read back, for each number below 10^36.
pub fn decimal_reads_back()
    ensures { ReadsBack }
{}

/// The constants that definitions above this crate cite have these values.
pub fn constants_are()
    ensures second { PS_PER_SECOND ≡ 1000000000000 }
    ensures nanosecond { PS_PER_NS ≡ 1000 }
    ensures end { END ≡ 4000000000000000000 }
    ensures rate { MAX_BPS ≡ 100000000000 }
    ensures burst { MAX_BURST_BITS ≡ 1000000000 }
    ensures least { MIN_OCTETS ≡ 64 }
    ensures most { MAX_OCTETS ≡ 2000 }
    ensures bits { MAX_WIRE_BITS ≡ 16160 }
    ensures spread { MAX_SPREAD ≡ 1000000000 }
{}
