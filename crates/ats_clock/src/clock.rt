//! What a bridge declares of its clock.

ghost use Rattle.std.specs.Prelude.{◌≡◌, ◌*◌, ◌≤◌, ◌↔◌, IsSome, IfSome};
ghost use Rattle.ats_num.specs.Division.{ceiling};
ghost use Rattle.ats_clock.specs.Clock.{IsClock, declared_clock, ideal};
ghost use Rattle.ats_clock.specs.Rates.{IsCommitted, committed, output_of, scheduler_for};

use crate::committed::Committed;
use ats_num::rate::{MAX_BPS, MAX_BURST_BITS};
use ats_num::time::PS_PER_SECOND;
use ats_num::{Rate, ceil_div};
use std::marker::Model;

/// The parts of which a deviation is counted.
pub const MILLION: u64 = 1_000_000;

/// The greatest deviation of a clock's rate, in parts in a million.
pub const MAX_DEVIATION_PPM: u32 = 1000;

/// The greatest step of a clock, in picoseconds.
pub const MAX_STEP_PS: u32 = 10_000_000;

/// What a bridge declares of the clock that its schedulers go by: how far the clock's rate deviates at most, in parts
/// in a million (IEEE Std 802.1Qcr, ClockRateDeviationMax), and its step, in picoseconds. The step is what the clock
/// may gain or lose beside its rate between any two times: one that ticks every 8 ns has a step of 8000 ps. Contracts
/// see both as a record.
#[derive(Clone, Copy, Debug, PartialEq, Eq)]
pub struct Clock {
    deviation_ppm: u32,
    step_ps: u32,
}

impl Model for Clock {
    ghost use Rattle.ats_clock.specs.Clock.{DeclaredClock, IsClock, declared_clock};

    ghost Value = { DeclaredClock };

    ghost view = { λ c. declared_clock c.deviation_ppm c.step_ps };

    ghost invariant = { λ c. IsClock (declared_clock c.deviation_ppm c.step_ps) };

    ghost inverse = { λ c. record { deviation_ppm = c.deviation_ppm; step_ps = c.step_ps } };
}

impl Clock {
    /// The clock of this deviation in parts in a million and this step in picoseconds, or `None` exactly where the
    /// deviation is over 1000 or the step over 10,000,000.
    pub fn new(deviation_ppm: u64, step_ps: u64) -> Option<Self>
        ensures valid { IsSome result ↔ IsClock (declared_clock deviation_ppm step_ps) }
        ensures value { IfSome result (λ clock. clock ≡ declared_clock deviation_ppm step_ps) }
    {
        if deviation_ppm > u64::from(MAX_DEVIATION_PPM) || step_ps > u64::from(MAX_STEP_PS) {
            return None;
        }
        Some(Clock {
            deviation_ppm: deviation_ppm as u32,
            step_ps: step_ps as u32,
        })
    }

    /// The ideal clock, which shows true time.
    pub fn ideal() -> Self
        ensures { result ≡ ideal }
    {
        Clock {
            deviation_ppm: 0,
            step_ps: 0,
        }
    }

    /// The greatest deviation of its rate, in parts in a million.
    pub fn deviation_ppm(&self) -> u32
        ensures value { result ≡ self.now.deviation_ppm }
        ensures valid { IsClock self.now }
    {
        self.deviation_ppm
    }

    /// Its step, in picoseconds.
    pub fn step_ps(&self) -> u32
        ensures value { result ≡ self.now.step_ps }
        ensures valid { IsClock self.now }
    {
        self.step_ps
    }

    /// What a scheduler is to have that goes by this clock, so that frames conform to it by this clock where, in true
    /// time, they conform to `arriving` at the hop before. `None` exactly where that rate is over 100,000,000,000 bits
    /// per second or that burst over 1,000,000,000 bits.
    pub fn scheduler_for(&self, arriving: Committed) -> Option<Committed>
        ensures fits { IsSome result ↔ IsCommitted (scheduler_for self.now arriving) }
        ensures value { IfSome result (λ scheduler. scheduler ≡ scheduler_for self.now arriving) }
    {
        let slow = u128::from(MILLION) - u128::from(self.deviation_ppm);
        let rate = quotient(scaled(arriving.rate.bps()), slow);
        let step = quotient(rate * u128::from(self.step_ps), PS_PER_SECOND.into());
        committed(rate, u128::from(arriving.burst_bits) + step)
    }

    /// What frames conform to in true time that a scheduler with `scheduler` lets through by this clock. `None` exactly
    /// where that rate is over 100,000,000,000 bits per second or that burst over 1,000,000,000 bits.
    pub fn output_of(&self, scheduler: Committed) -> Option<Committed>
        ensures fits { IsSome result ↔ IsCommitted (output_of self.now scheduler) }
        ensures value { IfSome result (λ output. output ≡ output_of self.now scheduler) }
    {
        let bps = u128::from(scheduler.rate.bps());
        let fast = u128::from(MILLION) + u128::from(self.deviation_ppm);
        let rate = quotient(bps * fast, MILLION.into());
        let step = scaled(self.step_ps.into()) + u128::from(self.deviation_ppm);
        let saved = quotient(bps * step, scaled(PS_PER_SECOND));
        committed(rate, u128::from(scheduler.burst_bits) + saved)
    }
}

// A number of parts, each a million times as small.
fn scaled(n: u64) -> u128
    ensures { result ≡ MILLION * n }
{
    u128::from(MILLION) * u128::from(n)
}

fn quotient(n: u128, d: u128) -> u128
    requires { 1 ≤ d }
    ensures value { result ≡ ceiling n d }
    ensures bounded { result ≤ n }
{
    ceil_div(n, d)
}

// This rate and this burst, or `None` exactly where one is over its limit or the rate is 0.
fn committed(rate_bps: u128, burst_bits: u128) -> Option<Committed>
    ensures fits { IsSome result ↔ IsCommitted (committed rate_bps burst_bits) }
    ensures value { IfSome result (λ c. c ≡ committed rate_bps burst_bits) }
{
    if rate_bps > u128::from(MAX_BPS) || burst_bits > u128::from(MAX_BURST_BITS) {
        return None;
    }
    let rate = Rate::new(rate_bps as u64)?;
    Some(Committed {
        rate,
        burst_bits: burst_bits as u64,
    })
}
