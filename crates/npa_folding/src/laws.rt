//! Laws of the rules. Each function does nothing: its clauses are the laws, for the proofs of the
//! crates above.

ghost use Rattle.std.specs.Prelude.{◌≡◌, ◌↔◌, IsTrue, List, Result};
ghost use Rattle.fold_core.specs.declared.error.Large.{Large};
ghost use Rattle.fold_core.specs.Rules.{Lawful};
ghost use Rattle.npa_sig.specs.declared.protocol.Protocol.{Protocol};
ghost use Rattle.npa_model.specs.declared.pattern.Pattern.{Pattern};
ghost use Rattle.npa_model.specs.Covering.{Covers};
ghost use Rattle.npa_model.specs.Fitting.{IsFit};
ghost use Rattle.npa_folding.specs.Equality.{equal_pattern};
ghost use Rattle.npa_folding.specs.Folding.{covers_item, rules_with};

/// The test of equality tells whether two patterns are one and the same.
pub fn equality_laws()
    ensures { (g h : Pattern) → IsTrue (equal_pattern g h) ↔ (g ≡ h) }
{}

/// Over any protocol, whatever the children: covers of items is a preorder and keeps initial
/// patterns. It says no more than covers of patterns, and the same of patterns that fit.
pub fn folding_laws()
    ensures lawful { (children : Protocol → Pattern → Result (List Pattern) Large)
        (protocol : Protocol) → Lawful (rules_with children protocol) }
    ensures covers { (protocol : Protocol) (t s : Pattern) → IsTrue (covers_item protocol t s)
        → Covers protocol.sig.sorts t s }
    ensures fit { (protocol : Protocol) (t s : Pattern) → IsFit protocol t → IsFit protocol s
        → Covers protocol.sig.sorts t s → IsTrue (covers_item protocol t s) }
{}
