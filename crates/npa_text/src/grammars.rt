ghost use Rattle.std.specs.Prelude.{◌≡◌};
ghost use Rattle.npa_syntax.specs.Languages.{language};
ghost use Rattle.npa_text.specs.Languages.{module_language, term_language, run_language};

use crate::symbols::*;
use crate::terminals::*;
use npa_syntax::{Grammar, one, optional, production, repeated};

/// The most brackets of a term that may be open at once.
pub const MOST_NESTED: u32 = 1_200;

/// The grammar of module texts.
#[tactic(auto, unfolding(crate::specs::Languages::module_language))]
pub fn module_grammar() -> Grammar
    ensures { language result ≡ module_language }
{
    Grammar {
        productions: &[
            production!(
                MODULE,
                PROTOCOL,
                [one!(PROTOCOL_NAME), one!(SEMICOLON_MARK), repeated!(ITEM)]
            ),
            production!(ITEM, SORT, [one!(SORT_NAME), one!(SEMICOLON_MARK)]),
            production!(
                ITEM,
                SUBSORT,
                [
                    one!(LOWER_SORT),
                    one!(LESS_MARK),
                    one!(UPPER_SORT),
                    one!(SEMICOLON_MARK)
                ]
            ),
            production!(
                ITEM,
                OP,
                [
                    one!(OPERATOR_NAME),
                    one!(COLON_MARK),
                    repeated!(ARGUMENT_SORT),
                    one!(ARROW_MARK),
                    one!(RESULT_SORT),
                    optional!(COMMUTATIVE),
                    one!(SEMICOLON_MARK)
                ]
            ),
            production!(
                ITEM,
                EQ,
                [
                    optional!(VARIABLES),
                    one!(COLON_MARK),
                    one!(TERM),
                    one!(EQUALS_MARK),
                    one!(TERM),
                    one!(SEMICOLON_MARK)
                ]
            ),
            production!(
                ITEM,
                STRAND,
                [
                    one!(STRAND_NAME),
                    optional!(FRESH_VALUES),
                    optional!(VARIABLES),
                    one!(COLON_MARK),
                    one!(EVENT),
                    repeated!(NEXT_EVENT),
                    one!(SEMICOLON_MARK)
                ]
            ),
            production!(
                ITEM,
                INTRUDER,
                [
                    one!(STRAND_NAME),
                    optional!(FRESH_VALUES),
                    optional!(VARIABLES),
                    one!(COLON_MARK),
                    one!(EVENT),
                    repeated!(NEXT_EVENT),
                    one!(SEMICOLON_MARK)
                ]
            ),
            production!(
                ITEM,
                AIM,
                [
                    one!(AIM_NAME),
                    optional!(VARIABLES),
                    one!(COLON_MARK),
                    one!(PART),
                    repeated!(NEXT_PART),
                    one!(SEMICOLON_MARK)
                ]
            ),
            production!(
                ITEM,
                GRAMMAR,
                [
                    one!(GRAMMAR_NAME),
                    optional!(VARIABLES),
                    one!(COLON_MARK),
                    one!(TERM),
                    optional!(CONDITIONS),
                    repeated!(NEXT_PRODUCTION),
                    one!(SEMICOLON_MARK)
                ]
            ),
            production!(
                FRESH_VALUES,
                FRESH,
                [one!(FRESH_VALUE), repeated!(FRESH_VALUE)]
            ),
            production!(VARIABLES, VARS, [one!(VARIABLE), repeated!(VARIABLE)]),
            production!(VARIABLE, NAME, [one!(COLON_MARK), one!(VARIABLE_SORT)]),
            production!(EVENT, PLUS, [one!(TERM)]),
            production!(EVENT, MINUS, [one!(TERM)]),
            production!(NEXT_EVENT, COMMA, [one!(EVENT)]),
            production!(PART, KNOWN, [one!(TERM)]),
            production!(
                PART,
                STRAND,
                [
                    one!(PART_STRAND),
                    one!(OPENING),
                    optional!(PARAMETERS),
                    one!(CLOSING),
                    one!(AT_WORD),
                    one!(BAR)
                ]
            ),
            production!(NEXT_PART, COMMA, [one!(PART)]),
            production!(
                PARAMETERS,
                NAME,
                [one!(EQUALS_MARK), one!(TERM), repeated!(NEXT_PARAMETER)]
            ),
            production!(NEXT_PARAMETER, COMMA, [one!(PARAMETER)]),
            production!(PARAMETER, NAME, [one!(EQUALS_MARK), one!(TERM)]),
            production!(NEXT_PRODUCTION, COMMA, [one!(TERM), optional!(CONDITIONS)]),
            production!(CONDITIONS, IF, [one!(CONDITION), repeated!(NEXT_CONDITION)]),
            production!(NEXT_CONDITION, AND, [one!(CONDITION)]),
            production!(CONDITION, NAME, [one!(DEMAND)]),
            production!(DEMAND, IN, []),
            production!(DEMAND, NOT, [one!(EXCLUSION)]),
            production!(EXCLUSION, KNOWN, []),
            production!(EXCLUSION, NAME, [optional!(ARGUMENTS)]),
            production!(TERM, NAME, [optional!(ARGUMENTS)]),
            production!(
                ARGUMENTS,
                OPEN,
                [one!(TERM), repeated!(NEXT_ARGUMENT), one!(CLOSING)]
            ),
            production!(NEXT_ARGUMENT, COMMA, [one!(TERM)]),
            production!(PROTOCOL_NAME, NAME, []),
            production!(SORT_NAME, NAME, []),
            production!(LOWER_SORT, NAME, []),
            production!(UPPER_SORT, NAME, []),
            production!(OPERATOR_NAME, NAME, []),
            production!(ARGUMENT_SORT, NAME, []),
            production!(RESULT_SORT, NAME, []),
            production!(COMMUTATIVE, COMM, []),
            production!(STRAND_NAME, NAME, []),
            production!(FRESH_VALUE, NAME, []),
            production!(VARIABLE_SORT, NAME, []),
            production!(AIM_NAME, NAME, []),
            production!(PART_STRAND, NAME, []),
            production!(BAR, NUMBER, []),
            production!(GRAMMAR_NAME, NAME, []),
            production!(OPENING, OPEN, []),
            production!(CLOSING, CLOSE, []),
            production!(COLON_MARK, COLON, []),
            production!(SEMICOLON_MARK, SEMICOLON, []),
            production!(EQUALS_MARK, EQUALS, []),
            production!(LESS_MARK, LESS, []),
            production!(ARROW_MARK, ARROW, []),
            production!(AT_WORD, AT, []),
        ],
        start: &[one!(MODULE)],
        nesting: ARGUMENTS,
        limit: MOST_NESTED,
    }
}

/// The grammar of terms, as they stand in module texts.
#[tactic(auto, unfolding(crate::specs::Languages::term_language))]
pub fn term_grammar() -> Grammar
    ensures { language result ≡ term_language }
{
    Grammar {
        productions: &[
            production!(TERM, NAME, [optional!(ARGUMENTS)]),
            production!(
                ARGUMENTS,
                OPEN,
                [one!(TERM), repeated!(NEXT_ARGUMENT), one!(CLOSING)]
            ),
            production!(NEXT_ARGUMENT, COMMA, [one!(TERM)]),
            production!(CLOSING, CLOSE, []),
        ],
        start: &[one!(TERM)],
        nesting: ARGUMENTS,
        limit: MOST_NESTED,
    }
}

/// The grammar of run texts.
#[tactic(auto, unfolding(crate::specs::Languages::run_language))]
pub fn run_grammar() -> Grammar
    ensures { language result ≡ run_language }
{
    Grammar {
        productions: &[
            production!(USED, USE, [one!(USED_STRAND), repeated!(VALUE)]),
            production!(VALUE, NAME, [one!(EQUALS_MARK), one!(GROUND)]),
            production!(GROUND, NAME, [optional!(GROUND_ARGUMENTS)]),
            production!(GROUND, FRESH_NAME, []),
            production!(
                GROUND_ARGUMENTS,
                OPEN,
                [one!(GROUND), repeated!(NEXT_GROUND), one!(CLOSING)]
            ),
            production!(NEXT_GROUND, COMMA, [one!(GROUND)]),
            production!(SCHEDULE, DO, [repeated!(STEP)]),
            production!(STEP, NUMBER, []),
            production!(REACHED_WORD, REACHED, []),
            production!(USED_STRAND, NAME, []),
            production!(EQUALS_MARK, EQUALS, []),
            production!(CLOSING, CLOSE, []),
        ],
        start: &[optional!(REACHED_WORD), repeated!(USED), one!(SCHEDULE)],
        nesting: GROUND_ARGUMENTS,
        limit: MOST_NESTED,
    }
}
