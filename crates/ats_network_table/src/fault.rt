//! Why a text is no network file, as far as its form goes.

ghost use Rattle.std.specs.Prelude.{Some};
ghost use Rattle.ats_network_table.specs.FaultText.{fault_text};

use crate::key::Key;
use crate::table::Table;
use ats_num::Fault;
use std::fmt;

/// The first fault of form of a text that is no network file. The entries of an array are counted
/// from 1; the top table's entry is 0. It is displayed as `not-toml`, `missing TABLE ENTRY KEY`,
/// `unknown TABLE ENTRY`, `kind TABLE ENTRY KEY` or `limit TABLE`.
#[derive(Clone, Copy, Debug, PartialEq, Eq)]
pub enum DocumentFault {
    /// The text is no TOML document, or no UTF-8.
    NotToml,
    /// A key that has to stand in the table does not.
    Missing {
        /// The table.
        table: Table,
        /// Its number among those of its array.
        entry: u32,
        /// The key.
        key: Key,
    },
    /// A key stands in the table that is none of its keys.
    Unknown {
        /// The table.
        table: Table,
        /// Its number among those of its array.
        entry: u32,
    },
    /// What stands with the key is not of its kind, or a path stands beside one of its ends.
    WrongKind {
        /// The table.
        table: Table,
        /// Its number among those of its array.
        entry: u32,
        /// The key.
        key: Key,
    },
    /// The array of this table has more entries than its limit.
    Limit {
        /// The table.
        table: Table,
    },
}

impl Fault for DocumentFault {}

impl fmt::Display for DocumentFault {
    ghost output = { λ fault. Some (fault_text fault) };

    fn fmt<W: fmt::Write>(&self, f: &mut fmt::Formatter<W>) -> fmt::Result {
        match self {
            DocumentFault::NotToml => f.write_str("not-toml"),
            DocumentFault::Missing { table, entry, key } => {
                write!(f, "missing {} {entry} {}", table.text(), key.text())
            }
            DocumentFault::Unknown { table, entry } => {
                write!(f, "unknown {} {entry}", table.text())
            }
            DocumentFault::WrongKind { table, entry, key } => {
                write!(f, "kind {} {entry} {}", table.text(), key.text())
            }
            DocumentFault::Limit { table } => write!(f, "limit {}", table.text()),
        }
    }
}
