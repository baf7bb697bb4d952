// The lists that public types hold: a contract sees each as the list of its values.
ghost use Rattle.std.specs.Prelude.{◌≡◌, ◌==◌, [], ◌∷◌, ◌++◌, length, OnOk, OnErr, IfOk};

use std::alloc::{AllocError, AllocFailed, Global};
use std::fmt;
use std::marker::Model;

/// Want of memory, the one answer that no clause bounds.
pub type Memory = AllocError;

/// A list of values. It is made from a vector and gives it back.
#[derive(Drop)]
pub struct Items<T> {
    vec: Vec<T>,
}

impl<T> Model for Items<T> {
    ghost use Rattle.std.specs.Prelude.{List};

    ghost Value = { List T };

    ghost view = { λ a. a.vec.items };
}

/// A list is shown by its length alone.
impl<T> fmt::Debug for Items<T> {
    fn fmt<W: fmt::Write>(&self, f: &mut fmt::Formatter<W>) -> fmt::Result {
        write!(f, "{} values", self.len())
    }
}

impl<T> Items<T> {
    /// The empty list, which takes no memory.
    pub fn new(alloc: Global) -> Self
        ensures { result ≡ [] }
    {
        Items {
            vec: Vec::new(alloc),
        }
    }

    /// The list of a vector's values.
    pub fn from_vec(vec: Vec<T>) -> Self
        ensures { result ≡ vec.items }
    {
        Items { vec }
    }

    /// The vector that holds the values.
    pub fn into_vec(self) -> Vec<T>
        ensures { result.items ≡ self }
    {
        let Items { vec } = self;
        vec
    }

    /// The values, in order.
    pub fn as_slice(&self) -> &[T]
        ensures { result.now ≡ self.now }
    {
        self.vec.as_slice()
    }

    /// How many values there are.
    pub fn len(&self) -> usize
        ensures { result ≡ length self.now }
    {
        self.vec.len()
    }

    /// Whether there is none.
    pub fn is_empty(&self) -> bool
        ensures { result ≡ (length self.now == 0) }
    {
        self.vec.is_empty()
    }

    /// Adds a value at the end. Where memory is wanting the list stays as it was.
    pub fn push(&mut self, value: T) -> Result<(), AllocFailed<T>>
        ensures ok { OnOk result (self.new ≡ self.old ++ value ∷ []) }
        ensures err { OnErr result (self.new ≡ self.old) }
    {
        self.vec.push(value)
    }
}

/// A value that can be made again where there is memory for it.
pub trait TryCopy: Sized {
    /// The same value again.
    fn copy(&self) -> Result<Self, Memory>
        ensures { IfOk result (λ value. value ≡ self.now) };
}

impl TryCopy for u8 {
    fn copy(&self) -> Result<u8, Memory> {
        Ok(*self)
    }
}

impl TryCopy for u64 {
    fn copy(&self) -> Result<u64, Memory> {
        Ok(*self)
    }
}

impl<T: TryCopy> TryCopy for Option<T> {
    fn copy(&self) -> Result<Option<T>, Memory> {
        match self {
            None => Ok(None),
            Some(value) => Ok(Some(value.copy()?)),
        }
    }
}

impl<T: TryCopy + Drop> Items<T> {
    /// The same values again, in the same order.
    pub fn copy(&self) -> Result<Items<T>, Memory>
        ensures { IfOk result (λ values. values ≡ self.now) }
    {
        let mut vec = Vec::with_capacity(*self.vec.allocator(), self.vec.len())?;
        for value in &self.vec {
            vec.push(value.copy()?)?;
        }
        Ok(Items { vec })
    }
}

/// A list of bytes.
pub type Vec8 = Items<u8>;

/// A list of the bytes of a slice.
pub fn bytes_of(alloc: Global, bytes: &[u8]) -> Result<Vec8, Memory>
    ensures { IfOk result (λ copied. copied ≡ bytes.now) }
{
    Ok(Items::from_vec(bytes.to_vec(alloc)?))
}
