//! Keys: what stands in ordered maps and sets.
ghost use Rattle.std.specs.Prelude.{◌≡◌};
ghost use Rattle.std.specs.declared.cmp.Ordering.TheVariants.{Equal};

pub trait Key: Ord + Clone {
    ghost exact: { (x y : Self) → Self.cmp x y ≡ Equal → x ≡ y };

    ghost copies: { (x y : Self) → Self.is_clone x y → y ≡ x };
}
