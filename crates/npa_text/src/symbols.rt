//! The nonterminals of the grammars, each named for the role that it has in a text.

/// A module.
pub const MODULE: u8 = 0;
/// The name of a module.
pub const PROTOCOL_NAME: u8 = 1;
/// An item of a module.
pub const ITEM: u8 = 2;
/// The name of a declared sort.
pub const SORT_NAME: u8 = 3;
/// The lower sort of a pair.
pub const LOWER_SORT: u8 = 4;
/// The upper sort of a pair.
pub const UPPER_SORT: u8 = 5;
/// The name of a declared operator.
pub const OPERATOR_NAME: u8 = 6;
/// The sort of an operator's argument.
pub const ARGUMENT_SORT: u8 = 7;
/// The sort of an operator's result.
pub const RESULT_SORT: u8 = 8;
/// The word that makes an operator commutative.
pub const COMMUTATIVE: u8 = 9;
/// The name of a declared strand.
pub const STRAND_NAME: u8 = 10;
/// The fresh values of a strand.
pub const FRESH_VALUES: u8 = 11;
/// The name of a fresh value.
pub const FRESH_VALUE: u8 = 12;
/// The variables of an item.
pub const VARIABLES: u8 = 13;
/// A variable, with its sort.
pub const VARIABLE: u8 = 14;
/// The sort of a variable.
pub const VARIABLE_SORT: u8 = 15;
/// An event of a strand.
pub const EVENT: u8 = 16;
/// A further event.
pub const NEXT_EVENT: u8 = 17;
/// The name of a declared aim.
pub const AIM_NAME: u8 = 18;
/// A part of an aim.
pub const PART: u8 = 19;
/// A further part.
pub const NEXT_PART: u8 = 20;
/// The strand of a part.
pub const PART_STRAND: u8 = 21;
/// The parameters of a part, with their terms.
pub const PARAMETERS: u8 = 22;
/// A further parameter with its comma.
pub const NEXT_PARAMETER: u8 = 23;
/// A further parameter.
pub const PARAMETER: u8 = 24;
/// The number of events that a part's strand has executed.
pub const BAR: u8 = 25;
/// The name of a declared grammar.
pub const GRAMMAR_NAME: u8 = 26;
/// A further production of a grammar.
pub const NEXT_PRODUCTION: u8 = 27;
/// The conditions of a production.
pub const CONDITIONS: u8 = 28;
/// A further condition with its word.
pub const NEXT_CONDITION: u8 = 29;
/// A condition.
pub const CONDITION: u8 = 30;
/// What a condition asks of its variable.
pub const DEMAND: u8 = 31;
/// What a condition excludes.
pub const EXCLUSION: u8 = 32;
/// A term.
pub const TERM: u8 = 33;
/// The arguments of a term, in brackets.
pub const ARGUMENTS: u8 = 34;
/// A further argument.
pub const NEXT_ARGUMENT: u8 = 35;
/// `(` of a part's parameters.
pub const OPENING: u8 = 36;
/// `)`.
pub const CLOSING: u8 = 37;
/// `:`.
pub const COLON_MARK: u8 = 38;
/// `;`.
pub const SEMICOLON_MARK: u8 = 39;
/// `=`.
pub const EQUALS_MARK: u8 = 40;
/// `<`.
pub const LESS_MARK: u8 = 41;
/// `->`.
pub const ARROW_MARK: u8 = 42;
/// The word `at`.
pub const AT_WORD: u8 = 43;
/// The word that a printed run begins with.
pub const REACHED_WORD: u8 = 44;
/// An instance of a run.
pub const USED: u8 = 45;
/// The strand of an instance.
pub const USED_STRAND: u8 = 46;
/// A parameter of an instance, with its value.
pub const VALUE: u8 = 47;
/// A ground term.
pub const GROUND: u8 = 48;
/// The arguments of a ground term, in brackets.
pub const GROUND_ARGUMENTS: u8 = 49;
/// A further argument of a ground term.
pub const NEXT_GROUND: u8 = 50;
/// The schedule of a run.
pub const SCHEDULE: u8 = 51;
/// A step of a schedule.
pub const STEP: u8 = 52;
