//! The rows of a certificate, by port and class.

ghost use Rattle.std.specs.Prelude.{◌≡◌, ◌<◌, ◌≤◌, length, IfOk};
ghost use Rattle.ats_certificate.specs.Certificate.{row_of};
ghost use Rattle.ats_certificate.specs.Form.{AreRows};
ghost use Rattle.ats_buffer.specs.RowTable.{HasRows, placed_rows};

use ats_certificate::{Certificate, Row};
use ats_class_table::PortClassTable;
use ats_topology::Topology;
use std::alloc::{AllocError, Global};
use std::marker::Model;

/// The rows of a certificate at the ports of a topology, each found at once. Contracts see the
/// number of ports and the rows.
#[derive(Drop)]
pub struct RowTable<'a> {
    certificate: &'a Certificate,
    ports: usize,
    table: PortClassTable<Option<Row>>,
}

impl<'a> Model for RowTable<'a> {
    ghost use Rattle.ats_buffer.specs.RowTable.{ArePlaced, PlacedRows, placed_rows};

    ghost Value = { PlacedRows };

    ghost view = { λ t. placed_rows t.ports t.certificate.now };

    ghost invariant = { λ t. ArePlaced t.ports t.certificate.now t.table };
}

impl<'a> RowTable<'a> {
    /// The rows of a certificate at the ports of a topology. It looks at each row once, and passes
    /// over rows of other ports. `AllocError` where there is no memory for them.
    pub fn new(
        alloc: Global,
        topology: &Topology,
        certificate: &'a Certificate,
    ) -> Result<Self, AllocError>
        ensures { IfOk result (λ rows. rows ≡ placed_rows (length topology.now.ports) certificate.now) }
    {
        let ports = topology.ports().len();
        let table = table_of(alloc, ports, certificate.rows())?;
        Ok(RowTable {
            certificate,
            ports,
            table,
        })
    }

    /// The row of a port and a class; `None` exactly where no row is theirs.
    pub fn row(&self, port: u32, class: u8) -> Option<Row>
        requires port { port < self.now.ports }
        requires class { class ≤ 7 }
        ensures value { result ≡ row_of self.now.rows port class }
        ensures form { AreRows self.now.rows }
    {
        self.table.get(port, class)
    }
}

// The rows at so many ports. The last row comes first, so that of rows with one place the first one stays.
fn table_of(
    alloc: Global,
    ports: usize,
    rows: &[Row],
) -> Result<PortClassTable<Option<Row>>, AllocError>
    requires few { ports ≤ 4096 }
    requires form { AreRows rows.now }
    ensures { IfOk result (HasRows ports rows.now) }
{
    let mut table = PortClassTable::new(alloc, ports, None)?;
    for i in (0..rows.len()).rev() {
        let row = rows[i];
        if (row.port as usize) < ports {
            table.set(row.port, row.class, Some(row));
        }
    }
    Ok(table)
}
