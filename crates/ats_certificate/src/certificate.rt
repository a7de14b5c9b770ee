//! Certificates.

ghost use Rattle.std.specs.Prelude.{◌≡◌, [], ◌∷◌, ◌++◌, OnOk, OnErr};
ghost use Rattle.ats_certificate.specs.Form.{AreRows, ComesAfter, IsRow};

use crate::row::Row;
use std::alloc::{AllocError, Global};
use std::marker::Model;

/// The rows of a certificate of delay bounds, each for a port and a class. They ascend strictly by
/// port and then class, and each has a class of 1 to 7, a longest and a shortest frame of at most
/// 16160 wire bits, and other numbers of at most 36 digits. What they say need not be right:
/// `ats_checker` judges that. Contracts see the list of rows.
#[derive(Drop)]
pub struct Certificate {
    row_list: Vec<Row>,
}

impl Model for Certificate {
    ghost use Rattle.std.specs.Prelude.{List};
    ghost use Rattle.ats_certificate.specs.Form.{AreRows};
    ghost use Rattle.ats_certificate.specs.declared.row.Row.{Row};

    ghost Value = { List Row };

    ghost view = { λ c. c.row_list.items };

    ghost invariant = { λ c. AreRows c.row_list.items };
}

impl Certificate {
    /// A certificate without rows.
    #[tactic(auto, using(crate::proofs::Rows::no_rows))]
    pub fn new(alloc: Global) -> Self
        ensures { result ≡ [] }
    {
        Certificate {
            row_list: Vec::new(alloc),
        }
    }

    /// Adds a row, which is in form and comes after the last one. `AllocError` leaves the certificate as it was.
    pub fn push(&mut self, row: Row) -> Result<(), AllocError>
        requires form { IsRow row }
        requires after { ComesAfter self.old row }
        ensures ok { OnOk result (self.new ≡ self.old ++ row ∷ []) }
        ensures err { OnErr result (self.new ≡ self.old) }
    {
        self.row_list.push(row)?;
        Ok(())
    }

    /// The rows.
    pub fn rows(&self) -> &[Row]
        ensures value { result.now ≡ self.now }
        ensures form { AreRows self.now }
    {
        self.row_list.as_slice()
    }
}
