//! Rules that are no choosing rules.
ghost use Rattle.choosing.specs.Careless.{CarelessRulesAreUnlawful};

/// A rule that always names the first client, one that always names none, and one that goes by fixed priority break the law
/// of choosing rules. There is nothing to run: the contract says it.
pub fn careless_rules_are_unlawful()
    ensures { CarelessRulesAreUnlawful }
{}
