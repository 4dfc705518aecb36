ghost use Rattle.std.specs.Prelude.{◌≡◌, [], ◌∷◌, ◌++◌, map, OnOk, OnErr};
ghost use Rattle.std.specs.Fmt.{decimal};
ghost use Rattle.npa_term.specs.declared.term.Term.TheVariants.{Var as VarTerm};
ghost use Rattle.npa_sig.specs.Printing.{printed, sort_text, op_text, bracketed, before_argument, after_arguments, Extends};

use crate::signature::Sig;
use npa_term::{NoMemory, Op, Term, Var};
use npa_text::put_number;

impl Sig {
    /// The name of an operator.
    fn op_name(&self, number: u16) -> &[u8]
        ensures { result.now ≡ op_text self.now number }
    {
        match self.ops().get(number as usize) {
            Some(decl) => decl.name.as_slice(),
            None => b"",
        }
    }
}

/// Appends the text of a term: an operator's name and its arguments in brackets, a fresh name as
/// `#` and its number, a variable as `?`, its number, `:` and its sort. Where memory is wanting
/// the text begins as it was.
#[tactic(auto, using(crate::proofs::Prints::printed_at))]
#[cycle(printing)]
pub fn print_term(sig: &Sig, t: &Term, out: &mut Vec<u8>) -> Result<(), NoMemory>
    ensures ok { OnOk result (out.new.items ≡ out.old.items ++ printed sig.now t.now) }
    ensures err { OnErr result (Extends out.old.items out.new.items) }
{
    match t {
        Term::Var(v) => print_variable(sig, *v, out),
        Term::Name(n) => put_marked(out, b'#', *n),
        Term::App(op, args) => print_application(sig, *op, args.as_slice(), out),
    }
}

#[tactic(auto, using(crate::proofs::Prints::arguments_step, crate::proofs::Prints::arguments_end, crate::proofs::Prints::begins_on, crate::proofs::Prints::begins_added))]
#[cycle(printing)]
fn print_application(sig: &Sig, op: Op, args: &[Term], out: &mut Vec<u8>) -> Result<(), NoMemory>
    ensures ok { OnOk result (out.new.items ≡ out.old.items ++ (op_text sig.now op.num ++ bracketed (map (printed sig.now) args.now))) }
    ensures err { OnErr result (Extends out.old.items out.new.items) }
{
    put_text(out, sig.op_name(op.num))?;
    for i in 0..args.len() {
        put_text(out, before_argument(i))?;
        print_term(sig, &args[i], out)?;
    }
    put_text(out, after_arguments(args.len()))
}

// What stands before the argument at a place.
fn before_argument(i: usize) -> &'static [u8]
    ensures { result.now ≡ before_argument i }
{
    if i == 0 { b"(" } else { b"," }
}

// What stands behind so many arguments.
fn after_arguments(count: usize) -> &'static [u8]
    ensures { result.now ≡ after_arguments count }
{
    if count == 0 { b"" } else { b")" }
}

fn print_variable(sig: &Sig, v: Var, out: &mut Vec<u8>) -> Result<(), NoMemory>
    ensures ok { OnOk result (out.new.items ≡ out.old.items ++ printed sig.now (VarTerm v)) }
    ensures err { OnErr result (Extends out.old.items out.new.items) }
{
    put_marked(out, b'?', v.num)?;
    put_text(out, b":")?;
    put_text(out, sig.sort_name(v.sort))
}

// Appends a mark and a number.
fn put_marked(out: &mut Vec<u8>, mark: u8, n: u32) -> Result<(), NoMemory>
    ensures ok { OnOk result (out.new.items ≡ out.old.items ++ mark ∷ decimal n) }
    ensures err { OnErr result (Extends out.old.items out.new.items) }
{
    out.push(mark)?;
    put_number(out, n as u64).map_err(|_| NoMemory)
}

// Appends a text.
fn put_text(out: &mut Vec<u8>, text: &[u8]) -> Result<(), NoMemory>
    ensures ok { OnOk result (out.new.items ≡ out.old.items ++ text.now) }
    ensures err { OnErr result (out.new.items ≡ out.old.items) }
{
    out.extend_from_slice(text)?;
    Ok(())
}
