ghost use Rattle.std.specs.Prelude.{◌≡◌, ◌<◌, length, None, Some, Ok, Err, IfOk, OnOk, OnErr};
ghost use Rattle.std.specs.Result.{IsErrOf};
ghost use Rattle.fold_core.specs.declared.event.Event.TheVariants.{Insert};
ghost use Rattle.fold_store.specs.Table.{TakenEntry};
ghost use Rattle.fold_store.specs.Store.{Next, item_at, IsFor, Finishes, Inserts};
ghost use Rattle.fold_pool.specs.Turn.{Expanded, InsertsAll, Inserted, Left, NoRoomIn, Works, Turns, SameHead};

use fold_core::{ExpandFail, Folding, NoMemory, Placed};
use fold_store::{InsertFail, Places, Store, StoreFail, Taken, Work};
use npa_list::List;
use std::alloc::Global;

/// What one turn of a worker did.
#[derive(Debug, Clone, Copy, PartialEq, Eq)]
pub enum Turn {
    /// It took an entry, inserted its children and finished it.
    Finished,
    /// It took an entry whose expansion is past a limit, and halted the search.
    Halted,
    /// No entry waits.
    Nothing,
    /// An entry waits, and the budget is spent.
    Spent,
    /// An initial item was found, or the search was halted.
    Stopped,
}

/// Inserts a child of the taken entry, and says into which entry.
fn insert<F: Folding>(
    alloc: Global,
    store: &mut Store<F>,
    id: u32,
    work: &Work<'_, F>,
    child: u64,
) -> Result<u32, StoreFail>
    requires is_for { IsFor store.old id work.now }
    requires within { child < length work.now.children }
    ensures ok { IfOk result (λ number. Inserted (F.rules store.old.rules) id child number store.old store.new) }
    ensures is_for { IsFor store.new id work.now }
    ensures full { IsErrOf result StoreFail.Full → NoRoomIn (F.rules store.new.rules) id store.new }
    ensures err { OnErr result (store.new ≡ store.old) }
{
    work.children();
    match store.insert(alloc, id, work, child) {
        Ok(Placed::Kept(number) | Placed::Folded(number)) => Ok(number),
        Err(InsertFail::Stranger) => unreachable!(),
        Err(InsertFail::Full) => Err(StoreFail::Full),
        Err(InsertFail::NoMemory) => Err(StoreFail::NoMemory),
    }
}

/// Inserts each child of the taken entry, and says into which entries.
fn insert_all<F: Folding>(
    alloc: Global,
    store: &mut Store<F>,
    id: u32,
    work: &Work<'_, F>,
) -> Result<Places, StoreFail>
    requires { IsFor store.old id work.now }
    ensures ok { IfOk result (λ entries. InsertsAll F.rules id work.now.children store.old entries store.new) }
    ensures is_for { IsFor store.new id work.now }
    ensures left { OnErr result (Inserts F.rules id store.old store.new) }
    ensures full { IsErrOf result StoreFail.Full → NoRoomIn (F.rules store.new.rules) id store.new }
{
    let mut entries = List::new(alloc);
    for child in 0..work.children() {
        let number = insert(alloc, store, id, work, child)?;
        entries.push(number)?;
    }
    Ok(entries)
}

/// Finishes the taken entry.
fn finish<F: Folding>(
    alloc: Global,
    store: &mut Store<F>,
    id: u32,
    work: &Work<'_, F>,
    hints: &Places,
) -> Result<(), StoreFail>
    requires { IsFor store.old id work.now }
    ensures ok { OnOk result (Finishes (F.rules store.old.rules) id work.now.children hints.now store.old store.new) }
    ensures left { OnErr result (Left F.rules id store.old store.new) }
    ensures full { IsErrOf result StoreFail.Full → NoRoomIn (F.rules store.new.rules) id store.new }
{
    work.children();
    match store.finish(alloc, id, work, hints) {
        Ok(()) => Ok(()),
        Err(InsertFail::Stranger) => unreachable!(),
        Err(InsertFail::Full) => Err(StoreFail::Full),
        Err(InsertFail::NoMemory) => Err(StoreFail::NoMemory),
    }
}

/// Inserts each child of the taken entry, and finishes it.
fn work_off<F: Folding>(
    alloc: Global,
    store: &mut Store<F>,
    id: u32,
    work: &Work<'_, F>,
) -> Result<(), StoreFail>
    requires { IsFor store.old id work.now }
    ensures ok { OnOk result (Expanded F.rules id store.old store.new) }
    ensures left { OnErr result (Left F.rules id store.old store.new) }
    ensures full { IsErrOf result StoreFail.Full → NoRoomIn (F.rules store.new.rules) id store.new }
{
    work.children();
    let entries = match insert_all(alloc, store, id, work) {
        Ok(entries) => entries,
        Err(fail) => return Err(fail),
    };
    finish(alloc, store, id, work, &entries)
}

/// The item of the taken entry.
fn item_of<F: Folding>(alloc: Global, store: &Store<F>, id: u32) -> Result<F::Item, NoMemory>
    requires { TakenEntry id store.now.core.entries }
    ensures { IfOk result (λ x. item_at store.now.core.entries id ≡ Some x) }
{
    match store.item(id) {
        Some(item) => F::copy_item(alloc, item),
        None => unreachable!(),
    }
}

/// Expands the taken entry.
fn expand<F: Folding>(
    alloc: Global,
    store: &mut Store<F>,
    rules: &F,
    id: u32,
) -> Result<Turn, StoreFail>
    requires same { rules.now ≡ store.old.rules }
    requires taken { TakenEntry id store.old.core.entries }
    requires goes_on { store.old.core.halted ≡ None }
    ensures { Works F.rules id store.old result store.new }
{
    let item = match item_of(alloc, store, id) {
        Ok(item) => item,
        Err(_) => return Err(StoreFail::NoMemory),
    };
    match Work::make(alloc, rules, item) {
        Ok(work) => match work_off(alloc, store, id, &work) {
            Ok(()) => Ok(Turn::Finished),
            Err(fail) => Err(fail),
        },
        Err(ExpandFail::Large(why)) => {
            store.halt(id, why);
            Ok(Turn::Halted)
        }
        Err(ExpandFail::NoMemory) => Err(StoreFail::NoMemory),
    }
}

/// One turn: it takes an entry, makes its expansion, inserts each child in order and finishes the
/// entry. After a refusal the entry that it took is taken still, and the inserts that it made stand
/// in the history.
pub fn one<F: Folding>(alloc: Global, store: &mut Store<F>, rules: &F) -> Result<Turn, StoreFail>
    requires { rules.now ≡ store.old.rules }
    ensures turn { Turns F.rules store.old result store.new }
    ensures head { SameHead store.old store.new }
{
    match store.take() {
        Taken::Got(id) => expand(alloc, store, rules, id),
        Taken::Nothing => Ok(Turn::Nothing),
        Taken::Spent => Ok(Turn::Spent),
        Taken::Stopped => Ok(Turn::Stopped),
    }
}
