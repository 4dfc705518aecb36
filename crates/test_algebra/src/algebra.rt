use crate::matching::{put_extended, put_first, put_left, put_matches, put_test};
use crate::reading::{first_scope, members_of, plain, source_of, terms_of};
use crate::rewriting::{put_cancels, put_normal, put_reduced};
use crate::terms::{
    put_canonical, put_compared, put_composed, put_ground_fault, put_instance, put_least,
    put_nameless, put_read, put_sort, put_sort_at,
};
use npa_rewrite::Theory;
use npa_sig::{Protocol, Scope, Sig};
use npa_term::Term;
use std::alloc::Global;
use std::test::Fail;
use test_tables::{Answers, first_wrong};

/// A module's theory, with the parameters of its first strand as the variables of terms.
#[derive(Clone, Copy)]
struct Algebra<'a> {
    theory: &'a Theory,
    scope: &'a Scope,
}

impl Algebra<'_> {
    fn sig(&self) -> &Sig {
        &self.theory.sig
    }

    // A call on one term.
    fn put_one(
        &self,
        alloc: Global,
        call: &str,
        term: &Term,
        out: &mut Vec<u8>,
    ) -> Result<(), Fail> {
        match call {
            "sort" => put_sort(self.sig(), term, out),
            "least" => put_least(alloc, self.sig(), term, out),
            "nameless" => put_nameless(alloc, self.sig(), term, out),
            "reduce" => put_reduced(alloc, self.theory, term, out),
            "normal" => put_normal(alloc, self.theory, term, out),
            _ => Ok(()),
        }
    }

    // A call on pairs that are borrowed.
    fn put_pairs(
        &self,
        alloc: Global,
        call: &str,
        terms: &[Term],
        out: &mut Vec<u8>,
    ) -> Result<(), Fail> {
        let members = members_of(alloc, terms)?;
        match call {
            "left" => put_left(alloc, self.sig(), members.as_slice(), out),
            _ => put_test(alloc, self.sig(), members.as_slice(), out),
        }
    }

    // A call on terms.
    fn put_all(
        &self,
        alloc: Global,
        call: &str,
        terms: &[Term],
        out: &mut Vec<u8>,
    ) -> Result<(), Fail> {
        match call {
            "canon" => put_canonical(alloc, self.sig(), terms, out),
            "cmp" => put_compared(terms, out),
            "instance" => put_instance(alloc, self.sig(), terms, out),
            "matches" => put_matches(alloc, self.sig(), terms, out),
            "find" => put_first(alloc, self.sig(), terms, out),
            "left" | "test" => self.put_pairs(alloc, call, terms, out),
            _ => match terms {
                [term] => self.put_one(alloc, call, term, out),
                _ => Ok(()),
            },
        }
    }

    // A call on the terms of texts.
    fn put_read_all(
        &self,
        alloc: Global,
        call: &str,
        texts: &str,
        out: &mut Vec<u8>,
    ) -> Result<(), Fail> {
        let terms = terms_of(alloc, self.sig(), self.scope, texts)?;
        self.put_all(alloc, call, terms.as_slice(), out)
    }

    // What the terms in front of `then` bind, composed with what those behind it bind.
    fn put_composed(&self, alloc: Global, texts: &str, out: &mut Vec<u8>) -> Result<(), Fail> {
        let Some((first, then)) = texts.split_once(" then ") else {
            return Ok(());
        };
        let first = terms_of(alloc, self.sig(), self.scope, first)?;
        let then = terms_of(alloc, self.sig(), self.scope, then)?;
        put_composed(alloc, self.sig(), first.as_slice(), then.as_slice(), out)
    }

    // The bindings of what stands in front of `by`, extended by the pairs behind it.
    fn put_extended(&self, alloc: Global, texts: &str, out: &mut Vec<u8>) -> Result<(), Fail> {
        let Some((first, further)) = texts.split_once(" by ") else {
            return Ok(());
        };
        let first = terms_of(alloc, self.sig(), self.scope, first)?;
        let further = terms_of(alloc, self.sig(), self.scope, further)?;
        put_extended(alloc, self.sig(), first.as_slice(), further.as_slice(), out)
    }
}

impl Answers for Algebra<'_> {
    // A row gives a call's name and its texts.
    fn answer(&self, alloc: Global, given: &str, out: &mut Vec<u8>) -> Result<(), Fail> {
        let Some((call, texts)) = given.split_once(' ') else {
            return Ok(());
        };
        match call {
            "read" => put_read(alloc, self.sig(), self.scope, texts, out),
            "sort_at" => put_sort_at(alloc, self.sig(), self.scope, texts, out),
            "ground" => put_ground_fault(alloc, self.sig(), out),
            "cancels" => put_cancels(self.theory, out),
            "compose" => self.put_composed(alloc, texts, out),
            "extend" => self.put_extended(alloc, texts, out),
            _ => self.put_read_all(alloc, call, texts, out),
        }
    }
}

// The first line that is wrong over a protocol.
fn first_wrong_over<'a>(
    alloc: Global,
    protocol: &Protocol,
    table: &'a str,
) -> Result<Option<&'a str>, Fail> {
    let theory = Theory::of(alloc, protocol)?;
    let scope = first_scope(alloc, protocol.strands.as_slice())?;
    let algebra = Algebra {
        theory: &theory,
        scope: &scope,
    };
    first_wrong(alloc, &algebra, table)
}

// Appends the answer for a call over a protocol.
fn put_over(
    alloc: Global,
    protocol: &Protocol,
    given: &str,
    out: &mut Vec<u8>,
) -> Result<(), Fail> {
    let theory = Theory::of(alloc, protocol)?;
    let scope = first_scope(alloc, protocol.strands.as_slice())?;
    let algebra = Algebra {
        theory: &theory,
        scope: &scope,
    };
    algebra.answer(alloc, given, out)
}

/// The first line of a table that has another answer over a module text than it says. A line gives
/// a call's name and the texts of its terms, over the variables of the module's first strand.
pub fn first_wrong_in<'a>(
    alloc: Global,
    module: &str,
    table: &'a str,
) -> Result<Option<&'a str>, Fail> {
    let source = source_of(alloc, module)?;
    first_wrong_over(alloc, &source.protocol, table)
}

// Appends the answer over a module text without marks.
fn put_in(alloc: Global, module: &str, given: &str, out: &mut Vec<u8>) -> Result<(), Fail> {
    let source = source_of(alloc, module)?;
    put_over(alloc, &source.protocol, given, out)
}

/// The answer for a call over a module text. In both texts pieces can be repeated, as in a table.
pub fn answer_in(alloc: Global, module: &str, given: &str) -> Result<Vec<u8>, Fail> {
    let module = plain(alloc, module)?;
    let given = plain(alloc, given)?;
    let mut out = Vec::new(alloc);
    put_in(alloc, module.as_str(), given.as_str(), &mut out)?;
    Ok(out)
}
