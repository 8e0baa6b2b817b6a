//! Bytes with their runs of zeros written short, as memory lies in a save (Quetzal 1.4, section 3).
//!
//! - `pack` writes what differs from the old bytes, `unpack` reads it back over them, `unpack_onto` does so at the end
//!   of a list, and `check` tells before, without memory, whether it can.
//! - `unpack_inverts_pack` does nothing; its contract states the laws of the two.
//!
//! In packed bytes a byte other than 0 stands for itself, and 00 k for k + 1 zeros; zeros that are
//! missing at the end are no mistake. Old bytes that are missing count as zeros, and those past the
//! last new byte aren't looked at.
#![tactic(auto)]

mod faults;
mod laws;
mod packing;
mod unpacking;

pub use faults::RunFault;
pub use laws::unpack_inverts_pack;
pub use packing::pack;
pub use unpacking::{check, unpack, unpack_onto};
