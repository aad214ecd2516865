// A vector of a fixed capacity that is copied as its bytes are, for types that are `Copy`.
#![tactic(auto)]

ghost use Rattle.std.specs.Prelude.{◌≡◌, ◌+◌, ◌<◌, ◌≤◌, ◌↔◌, [], ◌++◌, length, take, IsOk, OnOk, OnErr, MatchResult};
ghost use Rattle.std.specs.Cmp.{on_equiv, on_per};
ghost use Rattle.std.specs.Cmp.Lexicographic.{pointwise, lists_per, lists_equiv};
ghost use Rattle.fixed_vec.specs.Items.{padded, pasted};

use std::fmt;
use std::marker::Model;
use std::ops::DerefSlice;

// There was not enough room.
#[derive(Clone, Copy, Debug, PartialEq, Eq)]
pub struct CapacityError;

// At most `CAP` elements, which lie in the value itself.
#[derive(Clone, Copy)]
pub struct FixedVec<T, const CAP: usize> {
    places: [T; CAP],
    len: usize,
}

impl<T, const CAP: usize> Model for FixedVec<T, CAP> {
    ghost use Rattle.std.specs.Prelude.{◌≡◌, ◌≤◌, ◌++◌, length, take, drop};
    ghost use Rattle.std.proofs.Common.{arith, take-append-drop, length-take-le};
    ghost use Rattle.fixed_vec.specs.Items.{FixedVec as Items};

    ghost Value = { Items T };

    ghost view = { λ v. record { items = take v.len v.places; spare = drop v.len v.places } };

    ghost invariant = { λ v. (v.len ≤ CAP) × (length v.places ≡ CAP) };

    ghost inverse = { λ v. record { places = v.items ++ v.spare; len = length v.items } };

    ghost inverse_ok = { λ v h i. record {
      places = take-append-drop v.len v.places i;
      len = length-take-le v.len v.places (omega (arith, h.0, h.1)) i;
    } };
}

impl<T: Default, const CAP: usize> FixedVec<T, CAP> {
    pub fn new() -> Self
        ensures { result.items ≡ [] }
    {
        FixedVec {
            places: Default::default(),
            len: 0,
        }
    }
}

impl<T, const CAP: usize> FixedVec<T, CAP> {
    pub fn as_slice(&self) -> &[T]
        ensures value { result.now ≡ self.now.items }
        ensures fits { length result.now ≤ CAP }
    {
        &self.places[..self.len]
    }

    pub fn len(&self) -> usize
        ensures value { result ≡ length self.now.items }
        ensures fits { result ≤ CAP }
    {
        self.as_slice().len()
    }
}

impl<T: Copy, const CAP: usize> FixedVec<T, CAP> {
    // Keeps the first `len` elements.
    pub fn truncate(&mut self, len: usize)
        ensures { self.new.items ≡ take len self.old.items }
    {
        self.len = self.len.min(len);
    }

    // Puts the others over the elements from `start` on, and behind them.
    pub fn try_paste(&mut self, start: usize, others: &[T]) -> Result<(), CapacityError>
        ensures fits { IsOk result ↔ (start ≤ length self.old.items) × (start + length others.now ≤ CAP) }
        ensures ok { OnOk result (self.new.items ≡ pasted self.old.items start others.now) }
        ensures err { OnErr result (self.new ≡ self.old) }
    {
        if start > self.len || others.len() > CAP - start {
            return Err(CapacityError);
        }
        let end = start + others.len();
        let places = &mut self.places[..];
        places[start..end].copy_from_slice(others);
        self.len = self.len.max(end);
        Ok(())
    }

    // Puts all of the others behind the elements, or none.
    pub fn try_extend_from_slice(&mut self, others: &[T]) -> Result<(), CapacityError>
        ensures fits { IsOk result ↔ (length self.old.items + length others.now ≤ CAP) }
        ensures ok { OnOk result (self.new.items ≡ self.old.items ++ others.now) }
        ensures err { OnErr result (self.new ≡ self.old) }
    {
        self.try_paste(self.len, others)
    }
}

impl<const CAP: usize> FixedVec<u8, CAP> {
    // Puts the byte behind the bytes, as often as is wanting for the length.
    pub fn try_pad(&mut self, len: usize, byte: u8) -> Result<(), CapacityError>
        ensures fits { IsOk result ↔ (len ≤ CAP) }
        ensures ok { OnOk result (self.new.items ≡ padded self.old.items len byte) }
        ensures err { OnErr result (self.new ≡ self.old) }
    {
        if len > CAP {
            return Err(CapacityError);
        }
        if self.len < len {
            let places = &mut self.places[..];
            places[self.len..len].fill(byte);
            self.len = len;
        }
        Ok(())
    }
}

impl<T: Copy + Default, const CAP: usize> TryFrom<&[T]> for FixedVec<T, CAP> {
    type Error = CapacityError;

    ghost try_from_gives = { λ s r. MatchResult r (λ v. (v.items ≡ s.now) × (length s.now ≤ CAP)) (λ _. CAP < length s.now) };

    fn try_from(slice: &[T]) -> Result<Self, CapacityError> {
        let mut vec = Self::new();
        vec.try_extend_from_slice(slice)?;
        Ok(vec)
    }
}

impl<T: Default, const CAP: usize> Default for FixedVec<T, CAP> {
    ghost is_default = { λ v. v.items ≡ [] };

    fn default() -> Self {
        Self::new()
    }
}

impl<T, const CAP: usize> DerefSlice for FixedVec<T, CAP> {
    type Elem = T;

    ghost deref_gives = { λ v xs. (xs ≡ v.items) × (length xs ≤ CAP) };

    fn deref(&self) -> &[T] {
        self.as_slice()
    }
}

impl<T: PartialEq, const CAP: usize> PartialEq for FixedVec<T, CAP> {
    ghost eq = { λ v w. pointwise T.eq v.items w.items };

    ghost laws = { on_per (λ v. v.items) (lists_per T.laws) };

    fn eq(&self, other: &Self) -> bool {
        self.as_slice() == other.as_slice()
    }
}

impl<T: Eq, const CAP: usize> Eq for FixedVec<T, CAP> {
    ghost laws = { on_equiv (λ v. v.items) (lists_equiv T.Eq.laws) };
}

impl<T: fmt::Debug, const CAP: usize> fmt::Debug for FixedVec<T, CAP> {
    fn fmt<W: fmt::Write>(&self, f: &mut fmt::Formatter<W>) -> fmt::Result {
        f.debug_list().entries(self.as_slice()).finish()
    }
}
