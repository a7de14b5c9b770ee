//! The places of the rows of a certificate, by port and class.

ghost use Rattle.std.specs.Prelude.{◌≡◌, length, IfOk};
ghost use Rattle.ats_bound.specs.Least.{least_certificate};
ghost use Rattle.ats_explain.specs.Table.{ArePlaced};

use ats_certificate::Certificate;
use ats_class_table::PortClassTable;
use ats_network::Network;
use std::alloc::{AllocError, Global};

// The place of each row of the least certificate of a network, by port and class.
pub(crate) fn places_of(
    alloc: Global,
    network: &Network,
    certificate: &Certificate,
) -> Result<PortClassTable<usize>, AllocError>
    requires { certificate.now ≡ least_certificate network.now }
    ensures { IfOk result (ArePlaced (length network.now.topology.ports) certificate.now (length certificate.now)) }
{
    let rows = certificate.rows();
    let mut places = PortClassTable::new(alloc, network.topology().ports().len(), 0)?;
    for place in 0..rows.len() {
        places.set(rows[place].port, rows[place].class, place);
    }
    Ok(places)
}
