// The entries of a list of counts: bytes, or 16 bits where counts may pass 255.
ghost use Rattle.std.specs.Prelude.{◌≡◌, ◌==◌, ℕ, ◌+◌, ◌<◌, List, map};
ghost use Rattle.std.specs.Ordering.{nat_cmp};
ghost use Rattle.std.proofs.Common.{sym, rules};
ghost use Rattle.std.proofs.lemmas.List.{map-id};
ghost use Rattle.engine.specs.Turn.{byte_end, word_end};

use std::ops::Add;

pub trait Entry: Copy + Ord + Add<Self, Output = Self> {
    // An entry as a number, and a list of them as numbers.
    ghost value: { Self → ℕ };

    ghost values: { List Self → List ℕ };

    // Numbers below it fit.
    ghost limit: { ℕ };

    fn number(self) -> u32
        ensures { result ≡ value self };

    // What each `impl` proves: a list is read entry by entry, a sum below the limit is added, and order and equality are the numbers'.
    ghost each: { (x : List Self) → values x ≡ map value x };

    ghost adds: { (a b : Self) → value a + value b < limit → Self.can_add a b };

    ghost sums: { (a b c : Self) → Self.add_gives a b c → value c ≡ value a + value b };

    ghost ranks: { (a b : Self) → Self.cmp a b ≡ nat_cmp (value a) (value b) };

    ghost same: { (a b : Self) → Self.eq a b ≡ (value a == value b) };
}

impl Entry for u8 {
    ghost value = { λ a. a };

    ghost values = { λ x. x };

    ghost limit = { byte_end };

    ghost each = { λ x. sym (map-id x) };

    ghost adds = { Prim.search rules };

    ghost sums = { Prim.search rules };

    ghost ranks = { Prim.search rules };

    ghost same = { Prim.search rules };

    fn number(self) -> u32 {
        u32::from(self)
    }
}

impl Entry for u16 {
    ghost value = { λ a. a };

    ghost values = { λ x. x };

    ghost limit = { word_end };

    ghost each = { λ x. sym (map-id x) };

    ghost adds = { Prim.search rules };

    ghost sums = { Prim.search rules };

    ghost ranks = { Prim.search rules };

    ghost same = { Prim.search rules };

    fn number(self) -> u32 {
        u32::from(self)
    }
}

// Entries that those of type S hold as well.
pub trait Widens<S: Entry>: Entry {
    fn wide(self) -> S
        ensures { S.value result ≡ Self.value self };
}

impl<S: Entry> Widens<S> for S {
    fn wide(self) -> S {
        self
    }
}

impl Widens<u16> for u8 {
    fn wide(self) -> u16 {
        u16::from(self)
    }
}
