ghost use Rattle.std.specs.Prelude.{◌≡◌};

use fold_core::NoMemory;
use std::alloc::AllocError;
use thiserror::Error;

/// Why an item was not placed.
#[derive(Debug, Drop, Clone, Copy, PartialEq, Eq, Error)]
pub enum StoreFail {
    /// It must be kept, and the store has as many entries as it may.
    #[error("the store is full")]
    Full,
    /// Memory was wanting.
    #[error("out of memory")]
    NoMemory,
}

impl From<NoMemory> for StoreFail {
    ghost use Rattle.fold_store.specs.declared.error.StoreFail.TheVariants.{NoMemory as WantsMemory};

    ghost from_gives = { λ _ e. e ≡ WantsMemory };

    fn from(_failure: NoMemory) -> StoreFail {
        StoreFail::NoMemory
    }
}

impl From<AllocError> for StoreFail {
    ghost use Rattle.fold_store.specs.declared.error.StoreFail.TheVariants.{NoMemory as WantsMemory};

    ghost from_gives = { λ _ e. e ≡ WantsMemory };

    fn from(_failure: AllocError) -> StoreFail {
        StoreFail::NoMemory
    }
}

/// Why a child was not placed.
#[derive(Debug, Drop, Clone, Copy, PartialEq, Eq, Error)]
pub enum InsertFail {
    /// The entry isn't taken, or the work is of another item or made by other rules.
    #[error("the work is not that of a taken entry")]
    Stranger,
    /// It must be kept, and the store has as many entries as it may.
    #[error("the store is full")]
    Full,
    /// Memory was wanting.
    #[error("out of memory")]
    NoMemory,
}

impl From<NoMemory> for InsertFail {
    ghost use Rattle.fold_store.specs.declared.error.InsertFail.TheVariants.{NoMemory as WantsMemory};

    ghost from_gives = { λ _ e. e ≡ WantsMemory };

    fn from(_failure: NoMemory) -> InsertFail {
        InsertFail::NoMemory
    }
}

impl From<AllocError> for InsertFail {
    ghost use Rattle.fold_store.specs.declared.error.InsertFail.TheVariants.{NoMemory as WantsMemory};

    ghost from_gives = { λ _ e. e ≡ WantsMemory };

    fn from(_failure: AllocError) -> InsertFail {
        InsertFail::NoMemory
    }
}

impl From<StoreFail> for InsertFail {
    ghost use Rattle.fold_store.specs.Store.{insert_fail};

    ghost from_gives = { λ given e. e ≡ insert_fail given };

    fn from(failure: StoreFail) -> InsertFail {
        match failure {
            StoreFail::Full => InsertFail::Full,
            StoreFail::NoMemory => InsertFail::NoMemory,
        }
    }
}
