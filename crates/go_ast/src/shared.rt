//! A value that several owners share, seen by contracts as the value.

ghost use Rattle.std.specs.Prelude.{◌≡◌, IfOk};

use plain_data::Mem;
use std::alloc::Global;
use std::marker::Model;
use std::sync::Arc;

/// A value on the heap that has one owner or several, seen by contracts as the value. It is dropped
/// with its last owner.
#[derive(Debug, Drop)]
pub struct Shared<T> {
    inner: Arc<T>,
}

impl<T> Model for Shared<T> {
    ghost use Rattle.std.specs.Arc.{arc_value};

    ghost Value = { T };

    ghost coded = { T.code };

    ghost view = { λ shared. arc_value shared.inner };
}

impl<T> Shared<T> {
    /// The value. It takes no memory.
    pub fn get(&self) -> &T
        ensures { result.now ≡ self.now }
    {
        &self.inner
    }

    /// The same value for one more owner. It takes no memory.
    ///
    /// # Errors
    /// `NoMemory` where the owners can't be counted further.
    pub fn share(&self) -> Mem<Shared<T>>
    where
        T: Drop,
        ensures { IfOk result (λ shared. shared ≡ self.now) }
    {
        Ok(Shared {
            inner: Arc::try_clone(&self.inner)?,
        })
    }
}

impl<T: Drop> Shared<T> {
    /// A value with one owner.
    ///
    /// # Errors
    /// `NoMemory` where an allocation was refused.
    pub fn new(alloc: Global, value: T) -> Mem<Shared<T>>
        ensures { IfOk result (λ shared. shared ≡ value) }
    {
        Ok(Shared {
            inner: Arc::new(alloc, value)?,
        })
    }
}
