//! Numbers in their bytes.

ghost use Rattle.std.specs.Prelude.{◌≡◌, ◌++◌, OnOk};
ghost use Rattle.ats_port_capture.specs.Numbers.{high_first16, high_first32, high_first48, low_first16, low_first32};

use std::alloc::AllocError;

// A number of 16 bits, the lowest byte first.
#[tactic(auto, unfolding(crate::specs::Numbers::low_first16))]
pub(crate) fn write_low_first16(out: &mut Vec<u8>, n: u16) -> Result<(), AllocError>
    ensures { OnOk result (out.new.items ≡ out.old.items ++ low_first16 n) }
{
    out.extend_from_slice(&n.to_le_bytes())
}

// A number of 32 bits, the lowest byte first.
#[tactic(auto, unfolding(crate::specs::Numbers::low_first32))]
pub(crate) fn write_low_first32(out: &mut Vec<u8>, n: u32) -> Result<(), AllocError>
    ensures { OnOk result (out.new.items ≡ out.old.items ++ low_first32 n) }
{
    out.extend_from_slice(&n.to_le_bytes())
}

// A number of 16 bits, the highest byte first.
#[tactic(auto, unfolding(crate::specs::Numbers::high_first16))]
pub(crate) fn write_high_first16(out: &mut Vec<u8>, n: u16) -> Result<(), AllocError>
    ensures { OnOk result (out.new.items ≡ out.old.items ++ high_first16 n) }
{
    out.extend_from_slice(&n.to_be_bytes())
}

// A number of 32 bits, the highest byte first.
#[tactic(auto, unfolding(crate::specs::Numbers::high_first32))]
pub(crate) fn write_high_first32(out: &mut Vec<u8>, n: u32) -> Result<(), AllocError>
    ensures { OnOk result (out.new.items ≡ out.old.items ++ high_first32 n) }
{
    out.extend_from_slice(&n.to_be_bytes())
}

// The low 48 bits of a number, the highest byte first.
#[tactic(auto, unfolding(crate::specs::Numbers::high_first48))]
pub(crate) fn write_high_first48(out: &mut Vec<u8>, n: u64) -> Result<(), AllocError>
    ensures { OnOk result (out.new.items ≡ out.old.items ++ high_first48 n) }
{
    out.extend_from_slice(&n.to_be_bytes()[2..])
}
