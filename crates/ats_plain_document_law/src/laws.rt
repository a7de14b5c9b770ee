//! What the definitions by which a network file is read come to in plainer words, for all inputs.

ghost use Rattle.ats_plain_document_law.specs.Documents.{DocumentsAreDeclared};
ghost use Rattle.ats_plain_document_law.specs.Entries.{EntriesAreDeclared};
ghost use Rattle.ats_plain_document_law.specs.Keys.{KeysAreDue};
ghost use Rattle.ats_plain_document_law.specs.Networks.{NetworksAreDeclared};
ghost use Rattle.ats_plain_document_law.specs.Routes.{RoutesAreDeclared};
ghost use Rattle.ats_plain_document_law.specs.Senders.{SendersAreDeclared};
ghost use Rattle.ats_plain_document_law.specs.Tables.{TablesAreDeclared};
ghost use Rattle.ats_plain_document_law.specs.Values.{ValuesAreDeclared};

/// Which keys always have to stand in a table that has them, and which never.
pub fn keys_are_due()
    ensures { KeysAreDue }
{}

/// Which values are whole numbers of a range, and which are lists of a kind.
pub fn values_are_declared()
    ensures { ValuesAreDeclared }
{}

/// What each table may have, which fault of form it has, and in which format a file is read.
pub fn tables_are_declared()
    ensures { TablesAreDeclared }
{}

/// What each table gives, key by key, and which fault it has: the first of those of its form and of
/// its keys.
pub fn entries_are_declared()
    ensures { EntriesAreDeclared }
{}

/// What the arrays of a file give, one after another, how many tables each may have, and which
/// fault they have.
pub fn documents_are_declared()
    ensures { DocumentsAreDeclared }
{}

/// Which ports a route has, by the names along it or by its two ends, and which legs the routes of
/// a stream.
pub fn routes_are_declared()
    ensures { RoutesAreDeclared }
{}

/// What senders are of their entries, in which order they come, and how each is added or refused.
pub fn senders_are_declared()
    ensures { SendersAreDeclared }
{}

/// Which network a document declares whose nodes and links have no fault.
pub fn networks_are_declared()
    ensures { NetworksAreDeclared }
{}
