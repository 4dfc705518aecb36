/// The rules by which a pattern is pruned, in their order: a term of it isn't normal; a fact is both
/// known and unknown; two fresh parameters have one value, or a value isn't a variable; a fresh value
/// is heard before the strand that it belongs to has sent anything.
#[derive(Debug, Clone, Copy, PartialEq, Eq)]
pub enum PruneRule {
    Reducible,
    Clash,
    SharedFresh,
    EarlyFresh,
}
