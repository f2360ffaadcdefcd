//! Values whose list only grows.

ghost use Rattle.std.specs.Prelude.{◌≡◌, List, length};

/// A value that stands for a list of items, to which items are added and from which none is taken.
pub trait Grows {
    /// What the list has.
    type Item;

    ghost list: { Self → List Self.Item };

    /// How many items the list has.
    fn count(&self) -> u64
        ensures { result ≡ length (list self.now) };
}
