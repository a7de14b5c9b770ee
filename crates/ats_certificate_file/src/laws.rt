//! What is proved of the definitions themselves.

ghost use Rattle.ats_certificate_file.specs.Laws.{CertificateReadsBack};

/// What is read from the text of a certificate are its rows, where each is of a port of the topology.
pub fn certificate_reads_back()
    ensures { CertificateReadsBack }
{}
