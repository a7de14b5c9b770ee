//! What is proved of the definitions themselves, for all lists of transmissions.

ghost use Rattle.ats_port_rule.specs.Laws.{OrderGivesRule, OrderGivesTie, RuleKeptByPermutation};
ghost use Rattle.ats_port_rule.specs.Laws.{TieKeptByPermutation};

/// A port that makes each transmission after the ones before it, as it may, keeps the port rule.
pub fn order_gives_rule()
    ensures { OrderGivesRule }
{}

/// Such a port also breaks each tie by its key.
pub fn order_gives_tie()
    ensures { OrderGivesTie }
{}

/// The port rule speaks of the transmissions in whatever order they are listed.
pub fn rule_kept_by_permutation()
    ensures { RuleKeptByPermutation }
{}

/// So does the order of a tie.
pub fn tie_kept_by_permutation()
    ensures { TieKeptByPermutation }
{}
