//! Laws of the definitions.

ghost use Rattle.ats_bound.specs.Laws.{ComputedRowIsLeast, EachReasonIsTheFirst, FirstReasonIsOne};
ghost use Rattle.ats_bound.specs.Laws.{LeastCertificateHolds, LeastCertificateIsOne, ReasonLeavesNone};

/// A law: where a network has no reason against it, the certificate that is computed is the least, and holds.
pub fn least_certificate_holds()
    ensures { LeastCertificateHolds }
{}

/// A law: where a network has a reason against it, no certificate holds for it.
pub fn reason_leaves_none()
    ensures { ReasonLeavesNone }
{}

/// A law: a reason is given against a network exactly where it is the first: the first port and class whose load is
/// more than the link; where there is none, the first row of the least certificate by which a frame may have to stay
/// behind its port longer than it may; where there is none either, the first stream that is late by the least
/// certificate, and its first listener for which it is.
pub fn each_reason_is_the_first()
    ensures { EachReasonIsTheFirst }
{}

/// A law: no more than one reason is the first.
pub fn first_reason_is_one()
    ensures { FirstReasonIsOne }
{}

/// A law: a network has one least certificate at most, the one that is computed.
pub fn least_certificate_is_one()
    ensures { LeastCertificateIsOne }
{}

/// A law: the row that is computed for a port and a class has the least wait that is enough, where some stream of the
/// class uses the port, and the class and those above it fit the link. It is what `row` gives there, and what the
/// numbers in a reason or a refusal speak of.
pub fn computed_row_is_least()
    ensures { ComputedRowIsLeast }
{}
