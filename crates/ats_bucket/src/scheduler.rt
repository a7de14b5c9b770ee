//! The scheduler of one stream (IEEE Std 802.1Qcr, ATS scheduler state machines), in whole numbers.

ghost use Rattle.std.specs.Prelude.{◌≡◌, ◌+◌, ◌-◌, ◌*◌, ◌≤◌, nat_le, max, pos, ◌≤ℤ◌};
ghost use Rattle.ats_num.specs.Division.{IsCeiling};
ghost use Rattle.ats_num.specs.Rate.{IsRate};
ghost use Rattle.ats_num.specs.declared.time.TheConstants.{PS_PER_SECOND, END};
ghost use Rattle.ats_num.specs.declared.rate.TheConstants.{MAX_BURST_BITS};
ghost use Rattle.ats_num.specs.declared.wire.TheConstants.{MAX_WIRE_BITS};
ghost use Rattle.ats_bucket.specs.Scheduler.{first_empty, holds_at, IsEligibility, eligibility_time, empty_after};

use ats_num::time::PS_PER_SECOND;
use ats_num::{Ps, Rate, ceil_div};
use std::marker::Model;

/// A token bucket that decides when each frame of one stream becomes eligible. Contracts see it as its committed rate,
/// its burst and its bucket-empty time multiplied by the rate, a whole signed number: only eligibility times are
/// rounded, up to a whole picosecond. No call takes memory.
#[derive(Clone, Copy, Debug)]
pub struct Scheduler {
    rate: Rate,
    burst_bits: u64,
    full: u128,
}

impl Model for Scheduler {
    ghost use Rattle.ats_bucket.specs.Scheduler.{Bucket, IsWithin};

    ghost Value = { Bucket };

    ghost use Rattle.ats_bucket.specs.SchedulerInside.{bucket_of, inside_of, inside_again};

    ghost view = { bucket_of };

    ghost invariant = { λ s. IsWithin s.rate s.burst_bits s.full };

    ghost inverse = { inside_of };

    ghost inverse_ok = { inside_again };
}

impl Scheduler {
    /// A scheduler of this committed rate and this burst, of at most 1,000,000,000 bits, whose
    /// bucket is full at time 0.
    pub fn new(rate: Rate, burst_bits: u64) -> Scheduler
        requires { burst_bits ≤ MAX_BURST_BITS }
        ensures { result
            ≡ record { rate = rate; burst = burst_bits; empty = first_empty burst_bits } }
    {
        Scheduler {
            rate,
            burst_bits,
            full: 0,
        }
    }

    /// The eligibility time of a frame of so many wire bits that arrives at `arrival`, where the group eligibility time
    /// is `group`: the least whole picosecond that is not before either and at which the bucket holds its bits.
    pub fn propose(&self, arrival: Ps, group: Ps, bits: u64) -> Ps
        requires in_burst { bits ≤ self.now.burst }
        requires in_frame { bits ≤ MAX_WIRE_BITS }
        requires arrival { arrival.0 ≤ END }
        requires group { group.0 ≤ END }
        ensures least { IsEligibility self.now.rate self.now.empty group.0 arrival.0 bits result.0 }
        ensures value { result.0
            ≡ eligibility_time self.now.rate self.now.empty group.0 arrival.0 bits }
        ensures bounded { result.0 ≤ END + PS_PER_SECOND * bits }
    {
        let soonest = arrival.0.max(group.0);
        if is_filled(self.full, self.burst_bits, bits, self.rate, soonest) {
            return Ps(soonest);
        }
        let filled = filled_at(self.full, self.burst_bits, bits, self.rate);
        Ps(soonest.max(filled))
    }

    /// Takes the bits of a frame that became eligible at `eligible` out of the bucket.
    pub fn accept(&mut self, eligible: Ps, bits: u64)
        requires in_burst { bits ≤ self.old.burst }
        requires in_frame { bits ≤ MAX_WIRE_BITS }
        requires time { eligible.0 ≤ END }
        requires filled { holds_at self.old.empty bits ≤ℤ pos (eligible.0 * self.old.rate) }
        ensures { let s = self.old in
            self.new ≡ record s { empty = empty_after s.rate s.burst s.empty eligible.0 bits } }
    {
        self.full = full_after(self.full, self.rate, eligible, bits);
    }

    /// The bucket-empty time in picoseconds, multiplied by the rate. It is negative where the bucket was full at time 0
    /// and little was sent since.
    pub fn empty_time_scaled(&self) -> i128
        ensures { result ≡ self.now.empty }
    {
        self.full as i128 - scaled(self.burst_bits) as i128
    }
}

/// A number of bits, multiplied so that it adds to a time multiplied by a rate.
fn scaled(bits: u64) -> u128
    ensures { result ≡ PS_PER_SECOND * bits }
{
    u128::from(PS_PER_SECOND) * u128::from(bits)
}

/// Whether a bucket that is full at `full`, a time multiplied by the rate, holds so many bits at `at`; it is told
/// without a division.
fn is_filled(full: u128, burst_bits: u64, bits: u64, rate: Rate, at: u64) -> bool
    requires committed { IsRate rate }
    requires time { full ≤ END * rate + PS_PER_SECOND * burst_bits }
    requires in_frame { bits ≤ MAX_WIRE_BITS }
    ensures { result ≡ nat_le (full + PS_PER_SECOND * bits - PS_PER_SECOND * burst_bits) (at * rate) }
{
    let by_then = u128::from(at) * u128::from(rate.bps());
    full + scaled(bits) <= by_then + scaled(burst_bits)
}

/// The first whole picosecond at which a bucket that is full at `full`, a time multiplied by the rate, holds so many
/// bits.
fn filled_at(full: u128, burst_bits: u64, bits: u64, rate: Rate) -> u64
    requires committed { IsRate rate }
    requires time { full ≤ END * rate + PS_PER_SECOND * burst_bits }
    requires in_frame { bits ≤ MAX_WIRE_BITS }
    ensures least { IsCeiling (full + PS_PER_SECOND * bits - PS_PER_SECOND * burst_bits) rate result }
    ensures bounded { result ≤ END + PS_PER_SECOND * bits }
{
    let missing = (full + scaled(bits)).saturating_sub(scaled(burst_bits));
    ceil_div(missing, u128::from(rate.bps())) as u64
}

/// When a bucket that was full at `full` is full again after so many bits were taken at `eligible`; both `full` and the
/// result are multiplied by the rate.
fn full_after(full: u128, rate: Rate, eligible: Ps, bits: u64) -> u128
    requires committed { IsRate rate }
    requires time { full ≤ END * rate + PS_PER_SECOND * MAX_BURST_BITS }
    requires eligible { eligible.0 ≤ END }
    requires in_frame { bits ≤ MAX_WIRE_BITS }
    ensures { result ≡ max full (eligible.0 * rate) + PS_PER_SECOND * bits }
{
    let at = u128::from(eligible.0) * u128::from(rate.bps());
    full.max(at) + scaled(bits)
}
