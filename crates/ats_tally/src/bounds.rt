//! The bounds of a certificate, by port and class.

ghost use Rattle.std.specs.Prelude.{◌≡◌, ◌≢◌, ◌*◌, ◌^◌, ◌<◌, ◌≤◌, length, take, All, AllPairs, IfOk};
ghost use Rattle.ats_streams.specs.Branches.{first_from, leg_at, legs_of, routes_of};
ghost use Rattle.ats_streams.specs.declared.path.TheConstants.{MAX_PORTS};
ghost use Rattle.ats_certificate.specs.Certificate.{bound_on};
ghost use Rattle.ats_certificate.specs.Form.{AreRows};
ghost use Rattle.ats_tally.specs.Bounds.{AreBounds, bound_given, rows_at};

use ats_certificate::{Certificate, Row};
use ats_class_table::PortClassTable;
use ats_streams::Stream;
use ats_topology::Topology;
use std::alloc::{AllocError, Global};
use std::marker::Model;

/// The bounds of a certificate at the ports of a topology, each found at once. Contracts see the number of ports and
/// the certificate's rows.
#[derive(Drop)]
pub struct Bounds<'a> {
    certificate: &'a Certificate,
    ports: usize,
    table: PortClassTable<Option<u128>>,
}

impl<'a> Model for Bounds<'a> {
    ghost use Rattle.ats_tally.specs.Bounds.{AreTabled, RowsAt, rows_at};

    ghost Value = { RowsAt };

    ghost view = { λ b. rows_at b.ports b.certificate.now };

    ghost invariant = { λ b. AreTabled b.ports b.certificate.now b.table };
}

impl<'a> Bounds<'a> {
    /// The bounds of a certificate at the ports of a topology. It looks at each row once, and passes over rows of other
    /// ports. `AllocError` where there is no memory for them.
    pub fn new(
        alloc: Global,
        topology: &Topology,
        certificate: &'a Certificate,
    ) -> Result<Self, AllocError>
        ensures { IfOk result (λ bounds. bounds ≡ rows_at (length topology.now.ports) certificate.now) }
    {
        let ports = topology.ports().len();
        let table = table_of(alloc, ports, certificate.rows())?;
        Ok(Bounds {
            certificate,
            ports,
            table,
        })
    }

    /// The certificate's rows.
    pub fn rows(&self) -> &[Row]
        ensures value { result.now ≡ self.now.rows }
        ensures form { AreRows self.now.rows }
    {
        self.certificate.rows()
    }

    /// The bound of a port and a class, in picoseconds; `None` exactly where no row is theirs.
    pub fn given(&self, port: u32, class: u8) -> Option<u128>
        requires port { port < self.now.ports }
        requires class { class ≤ 7 }
        ensures value { result ≡ bound_given self.now.rows port class }
        ensures form { AreRows self.now.rows }
    {
        self.table.get(port, class)
    }

    /// The sum, in picoseconds, of the bounds along the route to a stream's listener, that of one leg counted from 0:
    /// at each port that of the stream's class there. No port of the stream is there twice, and one without a row adds
    /// nothing. It looks at the ports of the route alone.
    pub fn along(&self, stream: &Stream, leg: u32) -> u128
        requires ports { All (λ p. p < self.now.ports) stream.now.ports }
        requires apart { AllPairs (λ p q. p ≢ q) stream.now.ports }
        requires leg { leg ≤ length stream.now.branches }
        ensures { result ≡ bound_on self.now.rows stream.now
            (leg_at (routes_of stream.now.ports stream.now.branches) leg) }
    {
        let mut sum = self.on_leg(stream, leg, stream.leg(leg).len());
        let mut at = leg;
        while at > 0 {
            let branch = stream.branch(at);
            at = branch.leg;
            sum += self.on_leg(stream, at, branch.hop as usize);
        }
        sum
    }

    // The sum of the bounds at the first ports of a leg, as many as this.
    fn on_leg(&self, stream: &Stream, leg: u32, hops: usize) -> u128
        requires ports { All (λ p. p < self.now.ports) stream.now.ports }
        requires apart { AllPairs (λ p q. p ≢ q) stream.now.ports }
        requires leg { leg ≤ length stream.now.branches }
        requires hops { hops ≤ length (leg_at (legs_of stream.now.ports stream.now.branches) leg) }
        requires few { hops ≤ MAX_PORTS }
        ensures value { result ≡ bound_on self.now.rows stream.now
            (take hops (leg_at (legs_of stream.now.ports stream.now.branches) leg)) }
        ensures most { result ≤ hops * 10 ^ 36 }
    {
        let first = first_place(stream, leg);
        let (ports, classes) = (stream.ports(), stream.classes());
        let mut sum = 0;
        for hop in 0..hops {
            let place = first + hop;
            sum += self.given(ports[place], classes[place]).unwrap_or(0);
        }
        sum
    }
}

// The place of the first port of a leg among the ports of its stream.
fn first_place(stream: &Stream, leg: u32) -> usize
    requires { leg ≤ length stream.now.branches }
    ensures { result ≡ first_from 0 stream.now.branches leg }
{
    if leg == 0 {
        return 0;
    }
    stream.branch(leg).first as usize
}

// The bounds of rows at so many ports. The last row comes first, so that of rows with one place the first one stays.
fn table_of(
    alloc: Global,
    ports: usize,
    rows: &[Row],
) -> Result<PortClassTable<Option<u128>>, AllocError>
    requires few { ports ≤ 4096 }
    requires form { AreRows rows.now }
    ensures { IfOk result (AreBounds ports rows.now) }
{
    let mut table = PortClassTable::new(alloc, ports, None)?;
    for i in (0..rows.len()).rev() {
        let row = &rows[i];
        if (row.port as usize) < ports {
            table.set(row.port, row.class, Some(row.bound));
        }
    }
    Ok(table)
}
